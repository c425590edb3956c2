// The definition of a stored ad that a node belongs to, and its name.
#![tactic(auto)]

ghost use Rattle.std.specs.Prelude.{◌≡◌};
ghost use Rattle.holders.specs.Holders.{holder, holder_name};

use ad::StoredAd;

// The definition of a stored ad that a node belongs to, by its number.
pub fn definition_of(words: &[u64], node: usize) -> Option<usize>
    ensures { result ≡ holder words.now node }
{
    if words.len() < ad::WORDS {
        return None;
    }
    let ad = StoredAd { words, bytes: b"" };
    for j in 0..syntax::DEFINITIONS {
        if ad.name_length(j) == 0 {
            return None;
        }
        if node <= ad.root(j) {
            return Some(j);
        }
    }
    None
}

// The name of the definition that a node belongs to, as a part of the ad's bytes; empty where there is none.
pub fn definition_name<'a>(words: &[u64], bytes: &'a [u8], node: usize) -> &'a [u8]
    ensures { result.now ≡ holder_name words.now bytes.now (holder words.now node) }
{
    match definition_of(words, node) {
        Some(j) => {
            let ad = StoredAd { words, bytes };
            parts::cut(bytes, ad.offset(j), ad.name_length(j))
        }
        None => &bytes[..0],
    }
}
