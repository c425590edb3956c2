// Reading: one definition, behind its name.
#![tactic(auto)]

ghost use Rattle.std.specs.Prelude.{◌≤◌, ◌<◌};
ghost use Rattle.leaves.specs.Inner.Marks.{mark_at, memory};
ghost use Rattle.definition_reader.specs.Inner.Post.{AdRoom, DefinitionOk, DefinitionWithin};

use ad::StoredAd;
use leaves::Progress;
use syntax::{Reason, Refusal, Symbol};
use tokens::Span;

// Definition d, whose Name stands in front: so much is stored before it.
pub fn read_definition(
    text: &[u8],
    name: Span,
    d: usize,
    from: Progress,
    words: &mut [u64],
    bytes: &mut [u8],
) -> Result<Progress, Refusal>
    requires { (name.start < name.end) × ((from.bytes ≤ name.start) × AdRoom text.now name.end d (mark_at from) (memory words.old bytes.old)) }
    ensures within { DefinitionWithin text.now name.end d result }
    ensures exact { DefinitionOk text.now name.start name.end d (mark_at from) (memory words.old bytes.old) (memory words.new bytes.new) result }
{
    let written = &text[name.start..name.end];
    let stored = StoredAd { words, bytes };
    if stored.defined(d, written) {
        return Err(Refusal {
            reason: Reason::DefinedTwice,
            place: name.start,
        });
    }
    if syntax::DEFINITIONS <= d {
        return Err(Refusal {
            reason: Reason::TooMany,
            place: name.start,
        });
    }
    let assign = lookahead::symbol_at(text, name.end, Symbol::Assign)?;
    let n = name.end - name.start;
    ad::copy(text, name.start, name.end, bytes, from.bytes);
    let behind = Progress {
        place: assign.end,
        nodes: from.nodes,
        bytes: from.bytes + n,
    };
    let done = expressions::read_conditional(text, behind, 0, 0, words, bytes)?;
    let root = done.nodes - 1;
    ad::store_definition(words, d, from.bytes as u64, n as u64, root as u64);
    Ok(done)
}
