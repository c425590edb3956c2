ghost use Rattle.links.specs.Inner.Asked.{Formed};

use ad::{Kind, StoredAd};

// The nodes of two well-formed ads, side by side, as far as they lead to each other.
#[derive(Clone, Copy)]
pub struct Sides<'a> {
    pub first: StoredAd<'a>,
    pub second: StoredAd<'a>,
    pub ghost first_formed: { Formed first.words.now },
    pub ghost second_formed: { Formed second.words.now },
}

impl<'a> Sides<'a> {
    ghost use Rattle.std.specs.Prelude.{◌≡◌, List, ℕ, ◌+◌, ◌-◌, ◌≤◌, ◌<◌, length, get_or};
    ghost use Rattle.syntax.specs.Bounds.{max_nodes};
    ghost use Rattle.graph.specs.Transition.{led, needed};
    ghost use Rattle.graph.specs.Members.{numbers, raised};
    ghost use Rattle.ad.specs.Stored.{kind_of, kind_at, operand_at};
    ghost use Rattle.links.specs.Pair.{both, pair_graph, pair_slots};
    ghost use Rattle.links.specs.Graphs.{graph_of_sides};

    // The kind of the node x; none where it is a slot that no node has.
    #[inline(always)]
    #[tactic(auto, unfolding(crate::specs::Pair::both))]
    fn kind(self, x: usize) -> Option<Kind>
        requires { x < pair_slots }
        ensures { result ≡ kind_of (both (kind_at self.entry.first.words.now) (kind_at self.entry.second.words.now) x) }
    {
        if x < syntax::NODES {
            self.first.kind(x)
        } else {
            self.second.kind(x - syntax::NODES)
        }
    }

    // The number of the node x's operand i.
    #[inline(always)]
    #[tactic(auto, unfolding(crate::specs::Pair::both))]
    fn operand(self, x: usize, i: usize) -> usize
        requires { (x < pair_slots) × (i < 3) × (max_nodes ≤ x → operand_at self.second.words.now (x - max_nodes) i < max_nodes) }
        ensures { result ≡ both (λ j. operand_at self.entry.first.words.now j i) (λ j. max_nodes + operand_at self.entry.second.words.now j i) x }
    {
        if x < syntax::NODES {
            self.first.operand(x, i)
        } else {
            syntax::NODES + self.second.operand(x - syntax::NODES, i)
        }
    }

    // How many nodes x leads to, by its marks; a slot that is no node leads nowhere.
    #[inline(always)]
    pub fn led_count(self, target: &[usize], x: usize) -> usize
        requires { (x < pair_slots) × (x < length target.now) }
        ensures by_index { (b c : List ℕ) → result ≡ length (led (pair_graph self.entry.first.words.now b self.entry.second.words.now c) (numbers target.now) x) }
        ensures few { result ≤ 3 }
    {
        match self.kind(x) {
            Some(kind) if kind.is_reference() => match target[x] {
                1..=super::SLOTS => 1,
                _ => 0,
            },
            Some(kind) => kind.arity(),
            None => 0,
        }
    }

    // The node i of those that x leads to.
    #[inline(always)]
    pub fn led_to(self, target: &[usize], x: usize, i: usize) -> usize
        requires { (x < pair_slots) × (x < length target.now) × (i < length (led (graph_of_sides self) (numbers target.now) x)) }
        ensures by_index { (b c : List ℕ) → result ≡ get_or (led (pair_graph self.entry.first.words.now b self.entry.second.words.now c) (numbers target.now) x) i 0 }
        ensures small { result < pair_slots }
    {
        if self.refers(x) {
            target[x] - 1
        } else {
            self.operand(x, i)
        }
    }

    // How many nodes x needs, by its marks: a circular reference needs none.
    #[inline(always)]
    pub fn need_count(self, target: &[usize], flag: &[usize], x: usize) -> usize
        requires { (x < pair_slots) × (x < length target.now) × (x < length flag.now) }
        ensures by_index { (b c : List ℕ) → result ≡ length (needed (pair_graph self.entry.first.words.now b self.entry.second.words.now c) (numbers target.now) (raised flag.now) x) }
        ensures few { result ≤ 3 }
    {
        if flag[x] == 1 {
            0
        } else {
            self.led_count(target, x)
        }
    }

    // Whether the node x is a reference.
    #[inline(always)]
    pub fn refers(self, x: usize) -> bool
        requires { x < pair_slots }
        ensures { (b c : List ℕ) → result ≡ (pair_graph self.entry.first.words.now b self.entry.second.words.now c).ref x }
    {
        match self.kind(x) {
            Some(kind) => kind.is_reference(),
            None => false,
        }
    }
}
