// What the C functions of a node's definition and of a place in a text do: each calls the function of its kind and leaves its answer in
// numbers (docs/LAYOUT.md).
#![tactic(auto)]

ghost use Rattle.std.specs.Prelude.{◌≡◌};
ghost use Rattle.c_places.specs.Inspecting.{position_numbers, holder_numbers};
ghost use Rattle.holders.specs.Holders.{holder};

use ad::StoredAd;

// The definition that a node belongs to, as four numbers: 1, its number, and its name's offset and length; zeros where there is none.
pub fn definition(words: &[u64], node: usize, answer: &mut [u64; 4])
    ensures { answer.new ≡ holder_numbers words.now (holder words.now node) }
{
    *answer = match holders::definition_of(words, node) {
        Some(j) => {
            let ad = StoredAd { words, bytes: b"" };
            [1, j as u64, ad.offset(j) as u64, ad.name_length(j) as u64]
        }
        None => [0, 0, 0, 0],
    };
}

// The line and the column of a place in a text, as two numbers.
pub fn position(text: &[u8], place: usize, answer: &mut [u64; 2])
    ensures { answer.new ≡ position_numbers text.now place }
{
    let p = positions::locate(text, place);
    *answer = [p.line as u64, p.column as u64];
}
