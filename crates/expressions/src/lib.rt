// The readers of expressions: conditional, binary levels, unary and primary call each other in a cycle.
#![tactic(auto)]

ghost use Rattle.std.specs.Prelude.{◌≤◌, ◌<◌};
ghost use Rattle.leaves.specs.Inner.Marks.{mark_at, memory, Room};
ghost use Rattle.expressions.specs.Inner.Post.{LevelFor, Within, ConditionalOk, BinaryOk, UnaryOk, PrimaryOk, ArmsOk, RestOk};

use ad::Kind;
use leaves::{Leaf, Progress};
use syntax::{Reason, Refusal, Symbol};

// Whether an expression may be a level deeper; what asks for it is at a place.
fn deeper(depth: usize, place: usize) -> Result<(), Refusal>
    ensures { LevelFor depth place result }
{
    if depth < syntax::LEVELS {
        Ok(())
    } else {
        Err(Refusal {
            reason: Reason::NestedTooDeep,
            place,
        })
    }
}

// A whole expression.
#[cycle(expression)]
pub fn read_conditional(
    text: &[u8],
    from: Progress,
    depth: usize,
    begun: usize,
    words: &mut [u64],
    bytes: &mut [u8],
) -> Result<Progress, Refusal>
    requires { Room text.now from.place (mark_at from) begun (memory words.old bytes.old) }
    ensures within { Within text.now from.place 1 (mark_at from) begun result }
    ensures exact { ConditionalOk text.now from.place depth (mark_at from) begun (memory words.old bytes.old) (memory words.new bytes.new) result }
{
    let operand = read_binary(text, from, 1, depth, begun, words, bytes)?;
    read_arms(text, operand, depth, begun, words, bytes)
}

// Behind an operand: the arms of a conditional, where a `?` follows.
#[cycle(expression)]
fn read_arms(
    text: &[u8],
    from: Progress,
    depth: usize,
    begun: usize,
    words: &mut [u64],
    bytes: &mut [u8],
) -> Result<Progress, Refusal>
    requires { (1 ≤ from.nodes) × Room text.now from.place (mark_at from) begun (memory words.old bytes.old) }
    ensures within { Within text.now from.place 0 (mark_at from) begun result }
    ensures exact { ArmsOk text.now from.place depth (mark_at from) begun (memory words.old bytes.old) (memory words.new bytes.new) result }
{
    let Ok(question) = lookahead::symbol_at(text, from.place, Symbol::Question) else {
        return Ok(from);
    };
    deeper(depth, question.start)?;
    from.room(begun, question.start)?;
    let behind = Progress {
        place: question.end,
        ..from
    };
    let first = read_conditional(text, behind, depth + 1, begun + 1, words, bytes)?;
    let colon = lookahead::symbol_at(text, first.place, Symbol::Colon)?;
    let behind = Progress {
        place: colon.end,
        ..first
    };
    let second = read_conditional(text, behind, depth + 1, begun + 1, words, bytes)?;
    let n = second.nodes;
    let (a, b, c) = (from.nodes - 1, first.nodes - 1, n - 1);
    ad::store_node(words, n, Kind::Conditional, a as u64, b as u64, c as u64);
    Ok(Progress {
        nodes: n + 1,
        ..second
    })
}

// Operands of operators that bind at `level` or tighter. Level 7 is a unary expression.
#[cycle(expression)]
fn read_binary(
    text: &[u8],
    from: Progress,
    level: usize,
    depth: usize,
    begun: usize,
    words: &mut [u64],
    bytes: &mut [u8],
) -> Result<Progress, Refusal>
    requires { (level ≤ 7) × Room text.now from.place (mark_at from) begun (memory words.old bytes.old) }
    ensures within { Within text.now from.place 1 (mark_at from) begun result }
    ensures exact { BinaryOk text.now from.place level depth (mark_at from) begun (memory words.old bytes.old) (memory words.new bytes.new) result }
{
    if 7 <= level {
        return read_unary(text, from, depth, begun, words, bytes);
    }
    let operand = read_binary(text, from, level + 1, depth, begun, words, bytes)?;
    read_rest(text, operand, level, depth, begun, words, bytes)
}

// Behind a left operand: the operators of the level that follow, which group to the left.
#[cycle(expression)]
fn read_rest(
    text: &[u8],
    from: Progress,
    level: usize,
    depth: usize,
    begun: usize,
    words: &mut [u64],
    bytes: &mut [u8],
) -> Result<Progress, Refusal>
    requires { (level < 7) × ((1 ≤ from.nodes) × Room text.now from.place (mark_at from) begun (memory words.old bytes.old)) }
    ensures within { Within text.now from.place 0 (mark_at from) begun result }
    ensures exact { RestOk text.now from.place level depth (mark_at from) begun (memory words.old bytes.old) (memory words.new bytes.new) result }
{
    let Some((operator, at)) = lookahead::binary_at(text, from.place, level) else {
        return Ok(from);
    };
    from.room(begun, at.start)?;
    let behind = Progress {
        place: at.end,
        ..from
    };
    let right = read_binary(text, behind, level + 1, depth, begun + 1, words, bytes)?;
    let kind = Kind::Binary(operator);
    ad::store_node(
        words,
        right.nodes,
        kind,
        (from.nodes - 1) as u64,
        (right.nodes - 1) as u64,
        0,
    );
    let left = Progress {
        nodes: right.nodes + 1,
        ..right
    };
    read_rest(text, left, level, depth, begun, words, bytes)
}

// An operator of one operand and that, or what binds tighter.
#[cycle(expression)]
fn read_unary(
    text: &[u8],
    from: Progress,
    depth: usize,
    begun: usize,
    words: &mut [u64],
    bytes: &mut [u8],
) -> Result<Progress, Refusal>
    requires { Room text.now from.place (mark_at from) begun (memory words.old bytes.old) }
    ensures within { Within text.now from.place 1 (mark_at from) begun result }
    ensures exact { UnaryOk text.now from.place depth (mark_at from) begun (memory words.old bytes.old) (memory words.new bytes.new) result }
{
    let Some((operator, at)) = lookahead::unary_at(text, from.place) else {
        return read_primary(text, from, depth, begun, words, bytes);
    };
    deeper(depth, at.start)?;
    from.room(begun, at.start)?;
    let behind = Progress {
        place: at.end,
        ..from
    };
    let operand = read_unary(text, behind, depth + 1, begun + 1, words, bytes)?;
    let kind = Kind::Unary(operator);
    ad::store_node(words, operand.nodes, kind, (operand.nodes - 1) as u64, 0, 0);
    Ok(Progress {
        nodes: operand.nodes + 1,
        ..operand
    })
}

// A literal, a reference, or an expression in parentheses.
#[cycle(expression)]
fn read_primary(
    text: &[u8],
    from: Progress,
    depth: usize,
    begun: usize,
    words: &mut [u64],
    bytes: &mut [u8],
) -> Result<Progress, Refusal>
    requires { Room text.now from.place (mark_at from) begun (memory words.old bytes.old) }
    ensures within { Within text.now from.place 1 (mark_at from) begun result }
    ensures exact { PrimaryOk text.now from.place depth (mark_at from) begun (memory words.old bytes.old) (memory words.new bytes.new) result }
{
    let open = match leaves::leaf_at(text, from, begun, words, bytes)? {
        Leaf::Done(done) => return Ok(done),
        Leaf::Open(open) => open,
    };
    deeper(depth, open.start)?;
    let behind = Progress {
        place: open.end,
        ..from
    };
    let inner = read_conditional(text, behind, depth + 1, begun, words, bytes)?;
    let close = lookahead::symbol_at(text, inner.place, Symbol::CloseParenthesis)?;
    Ok(Progress {
        place: close.end,
        ..inner
    })
}
