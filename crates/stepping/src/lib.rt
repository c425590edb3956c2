// The step, which works out one node's value from the slots of its needs.
#![tactic(auto)]

ghost use Rattle.std.specs.Prelude.{◌≡◌, ◌<◌};
ghost use Rattle.syntax.specs.Bounds.{max_nodes};
ghost use Rattle.links.specs.Pair.{pair_slots};
ghost use Rattle.evaluation.specs.Evaluation.{node_from, node_at, Stepped};
ghost use Rattle.evaluation.specs.Marked.{needs_of, rule_of_node};
ghost use Rattle.evaluation.specs.Inner.Asked.{AtStep};

use ad::StoredAd;
use evaluation::{Marked, need_value};
use links::Sides;
use nodes::Node;
use slots::Slot;

// Node i of an ad, `second` or the first.
fn node_from(second: bool, ad: StoredAd<'_>, i: usize) -> Node
    requires { i < max_nodes }
    ensures { result ≡ node_from second ad.entry.words.now i }
{
    nodes::node_of(
        second,
        ad.code(i),
        ad.operand(i, 0) as u64,
        ad.operand(i, 1) as u64,
    )
}

// The node x.
fn node_at(sides: Sides<'_>, x: usize) -> Node
    requires { x < pair_slots }
    ensures { result ≡ node_at sides.entry.first.words.now sides.entry.second.words.now x }
{
    if x < syntax::NODES {
        node_from(false, sides.first, x)
    } else {
        node_from(true, sides.second, x - syntax::NODES)
    }
}

// THE STEP: the slot of the node x becomes what its rule makes of the slots of its needs, whatever they hold.
pub fn step(marked: Marked<'_, '_>, table: &mut [u64], x: usize)
    requires { AtStep marked.sides.first.words.now marked.sides.second.words.now marked.target.now marked.flag.now x }
    ensures { Stepped (needs_of marked.entry) (rule_of_node marked.entry) x table.old table.new }
{
    let Sides { first, second } = marked.sides;
    let p = need_value(marked, table, x, 0);
    let q = need_value(marked, table, x, 1);
    let r = need_value(marked, table, x, 2);
    let value = nodes::apply(first.bytes, second.bytes, node_at(marked.sides, x), p, q, r);
    slots::store(table, x, Slot::Held(value));
}
