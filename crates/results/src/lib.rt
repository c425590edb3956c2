// What is shown of a match: the value in a slot of its table, and the bytes of a String.
#![tactic(auto)]

ghost use Rattle.std.specs.Prelude.{◌≡◌, cond};
ghost use Rattle.parts.specs.Parts.{PartFrom};
ghost use Rattle.values.specs.Values.{bytes_at};
ghost use Rattle.results.specs.Results.{shown_at};

use slots::Slot;

// What a match left in the slot of a node of an ad, `second` or the first; blank where there is no such slot.
pub fn value_at(table: &[u64], second: bool, node: usize) -> Slot
    ensures { result ≡ shown_at table.now second node }
{
    if node < syntax::NODES {
        slots::load(table, if second { syntax::NODES + node } else { node })
    } else {
        Slot::Blank
    }
}

// The bytes of a String value, as a part of its ad's memory, cut to what that holds.
pub fn string_bytes<'a>(
    first: &'a [u8],
    second: &'a [u8],
    side: bool,
    offset: u16,
    length: u16,
) -> &'a [u8]
    ensures result_value { result.now ≡ bytes_at first.now second.now side offset length }
    ensures place { PartFrom (cond side second.entry first.entry) offset result }
{
    values::part(first, second, side, offset, length)
}
