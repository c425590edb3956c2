// What a stored ad shows of one of its nodes: its expression's text.
#![tactic(auto)]

ghost use Rattle.std.specs.Prelude.{◌≡◌, length};
ghost use Rattle.ad.specs.Layout.{ad_words, ad_bytes_room};
ghost use Rattle.printer.specs.Prints.{PrintsText};
ghost use Rattle.inspection.specs.Inspection.{node_text};

use ad::StoredAd;
use syntax::{Reason, Refusal};

// Prints the expression of a node over exactly the room of an ad.
fn expression_room(ad: StoredAd<'_>, node: usize, out: &mut [u8]) -> Result<usize, Refusal>
    requires { (length ad.words.now ≡ ad_words) × (length ad.bytes.now ≡ ad_bytes_room) }
    ensures { PrintsText (λ a. node_text a node) ad.entry.words.now ad.entry.bytes.now out.old out.new result }
{
    let checked = well_formed::check(ad.words, ad.bytes).ok_or(Reason::NotWellFormed)?;
    if checked.counts.nodes <= node {
        return Ok(0);
    }
    // Its length, as a refusal must leave the output unchanged.
    let k = tree_printer::put_tree(ad, node, &mut [], 0);
    if out.len() < k {
        return Err(Reason::PrintTooLong.into());
    }
    if syntax::TEXT_BYTES < k {
        return Err(Reason::PrintTooLong.into());
    }
    tree_printer::put_tree(ad, node, out, 0);
    Ok(k)
}

// Prints the expression of a node of any stored numbers into any output: the length of the text that then stands in front, 0 where
// there is no such node; or a refusal.
pub fn expression(
    words: &[u64],
    bytes: &[u8],
    node: usize,
    out: &mut [u8],
) -> Result<usize, Refusal>
    ensures { PrintsText (λ a. node_text a node) words.now bytes.now out.old out.new result }
{
    if words.len() < ad::WORDS {
        return Err(Reason::MemoryTooSmall.into());
    }
    if bytes.len() < ad::BYTES {
        return Err(Reason::MemoryTooSmall.into());
    }
    let ad = StoredAd {
        words: &words[..ad::WORDS],
        bytes: &bytes[..ad::BYTES],
    };
    expression_room(ad, node, out)
}
