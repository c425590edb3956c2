ghost use Rattle.links.specs.Inner.Asked.{Measured};

use ad::{Counts, StoredAd};

// A well-formed stored ad, and its counts.
#[derive(Clone, Copy)]
pub struct FormedAd<'a> {
    pub ad: StoredAd<'a>,
    pub counts: Counts,
    pub ghost measured: { Measured ad.words.now counts.nodes counts.definitions },
}

// Two well-formed ads, side by side.
#[derive(Clone, Copy)]
pub struct AdPair<'a> {
    pub first: FormedAd<'a>,
    pub second: FormedAd<'a>,
}

impl<'a> AdPair<'a> {
    ghost use Rattle.std.specs.Prelude.{◌≡◌, ◌<◌};
    ghost use Rattle.links.specs.Pair.{pair_slots};
    ghost use Rattle.links.specs.Graphs.{graph_of};

    // How many nodes the two ads have.
    #[inline(always)]
    pub fn size(self) -> usize
        ensures { result ≡ (graph_of self.entry).size }
    {
        self.first.counts.nodes + self.second.counts.nodes
    }

    // The node of index i.
    #[inline(always)]
    pub fn node_at(self, i: usize) -> usize
        requires { i < pair_slots }
        ensures { result ≡ (graph_of self.entry).nth i }
    {
        let n = self.first.counts.nodes;
        if i < n { i } else { syntax::NODES + (i - n) }
    }
}
