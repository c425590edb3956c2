// Evaluation: the value that the table holds for a node's need.
#![tactic(auto)]

ghost use Rattle.std.specs.Prelude.{◌≡◌, List, ℕ, map};
ghost use Rattle.links.specs.Pair.{pair_graph};
ghost use Rattle.slots.specs.Packed.{slot_at};
ghost use Rattle.nodes.specs.Nodes.{value_in};
ghost use Rattle.evaluation.specs.Evaluation.{seen, needed};
ghost use Rattle.evaluation.specs.Inner.Asked.{AtStep};

use links::Sides;
use slots::Slot;
use values::Value;

// The nodes of two well-formed ads, with the targets and flags by which their needs are known.
#[derive(Clone, Copy)]
pub struct Marked<'a, 'm> {
    pub sides: Sides<'a>,
    pub target: &'m [usize],
    pub flag: &'m [usize],
}

// The value in a slot; a blank one reads as Undefined.
#[inline(always)]
pub fn value_in(table: &[u64], y: usize) -> Value
    ensures { result ≡ seen (slot_at table.now y) }
{
    match slots::load(table, y) {
        Slot::Blank => Value::Undefined,
        Slot::Held(v) => v,
    }
}

// The value that the table holds for need i of the node x, by its marks.
#[inline(always)]
pub fn need_value(marked: Marked<'_, '_>, table: &[u64], x: usize, i: usize) -> Value
    requires { AtStep marked.sides.first.words.now marked.sides.second.words.now marked.target.now marked.flag.now x }
    ensures { (b c : List ℕ) → result ≡ value_in (map (λ y. seen (slot_at table.now y)) (needed (pair_graph marked.entry.sides.first.words.now b marked.entry.sides.second.words.now c) marked.entry.target.now marked.entry.flag.now x)) i }
{
    if marked.flag[x] != 1 && i < marked.sides.led_count(marked.target, x) {
        let y = marked.sides.led_to(marked.target, x, i);
        value_in(table, y)
    } else {
        Value::Undefined
    }
}
