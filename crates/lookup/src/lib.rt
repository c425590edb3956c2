// Looking names up in two ads, by fingerprints: a name is compared only with those that have its own. The four roots are found so too.
#![tactic(auto)]

ghost use Rattle.std.specs.Prelude.{◌≡◌, map, ◌++◌, ◌+◌, ◌≤◌, ◌<◌, length, take, not, cond};
ghost use Rattle.syntax.specs.Bounds.{max_definitions, max_nodes};
ghost use Rattle.graph.specs.Transition.{marked};
ghost use Rattle.ad.specs.Stored.{find, kind_at, node_count, is_reference};
ghost use Rattle.links.specs.Pair.{numbered, linked, links_from, pair_slots};
ghost use Rattle.links.specs.Graphs.{graph_of, RootsOf};
ghost use Rattle.links.specs.Inner.Asked.{print_at, Printed, unmarked, mark_of, Stands, Fingerprints};
ghost use Rattle.links.specs.Inner.Filling.{Filled};

use ad::Kind;
use links::{AdPair, FormedAd};

// Where the fingerprint of definition j of an ad, `second` or the first, is kept.
fn print_at(second: bool, j: usize) -> usize
    requires { j < max_definitions }
    ensures value { result ≡ print_at second j }
    ensures small { result < 512 }
{
    if second { syntax::DEFINITIONS + j } else { j }
}

// The fingerprints of the names of an ad's definitions, `second` or the first.
fn fill(side: FormedAd<'_>, second: bool, prints: &mut [u32])
    requires { 512 ≤ length prints.old }
    ensures { Filled second side.entry.ad.words.now side.entry.ad.bytes.now side.entry.counts.definitions prints.old prints.new }
{
    for j in 0..side.counts.definitions {
        let at = print_at(second, j);
        prints[at] = names::fingerprint(side.ad.name(j));
    }
}

// The number of a root of an ad, `second` or the first.
fn numbered(second: bool, root: usize) -> usize
    requires { root < max_nodes }
    ensures value { result ≡ numbered second root }
    ensures small { result < pair_slots }
{
    if second { syntax::NODES + root } else { root }
}

// The root of the first definition of an ad, `second` or the first, that has this name.
fn find_name(side: FormedAd<'_>, second: bool, prints: &[u32], name: &[u8]) -> Option<usize>
    requires { Printed second side.ad.words.now side.ad.bytes.now prints.now × (512 ≤ length prints.now) }
    ensures found { mark_of result ≡ marked (map (numbered second) (find side.entry.ad.words.now side.entry.ad.bytes.now name.now)) }
    ensures small { mark_of result ≤ pair_slots }
{
    let print = names::fingerprint(name);
    for j in 0..side.counts.definitions {
        if prints[print_at(second, j)] == print && side.ad.has_name(j, name) {
            return Some(numbered(second, side.ad.root(j)));
        }
    }
    None
}

// Where the name of node i of an ad, `second` or the first, is found, if it is a reference.
fn found_from(
    side: FormedAd<'_>,
    other: FormedAd<'_>,
    second: bool,
    prints: &[u32],
    i: usize,
) -> Option<usize>
    requires node { i < node_count side.ad.words.now }
    requires prints { Printed second side.ad.words.now side.ad.bytes.now prints.now × Printed (not second) other.ad.words.now other.ad.bytes.now prints.now × (512 ≤ length prints.now) }
    ensures found { mark_of result ≡ cond (is_reference (kind_at side.entry.ad.words.now i)) (marked (map (linked second) (links_from side.entry.ad.words.now side.entry.ad.bytes.now other.entry.ad.words.now other.entry.ad.bytes.now i))) 0 }
    ensures small { mark_of result ≤ pair_slots }
{
    match side.ad.kind(i)? {
        Kind::Own => find_name(side, second, prints, side.ad.reference_name(i)),
        Kind::Other => find_name(other, !second, prints, side.ad.reference_name(i)),
        _ => None,
    }
}

// The fingerprints of the names of all definitions.
pub fn fingerprints(ads: AdPair<'_>, prints: &mut [u32])
    requires { 512 ≤ length prints.old }
    ensures { Fingerprints ads.entry.first.ad.words.now ads.entry.first.ad.bytes.now ads.entry.second.ad.words.now ads.entry.second.ad.bytes.now prints.new }
{
    fill(ads.first, false, prints);
    fill(ads.second, true, prints);
}

// The roots of the first ad's Requirements, the second's, the first's Rank, the second's.
#[derive(Clone, Copy)]
pub struct Roots {
    pub first_requirements: Option<usize>,
    pub second_requirements: Option<usize>,
    pub first_rank: Option<usize>,
    pub second_rank: Option<usize>,
}

// Two ads, and the fingerprints of their names.
#[derive(Clone, Copy)]
pub struct PrintedPair<'a> {
    pub ads: AdPair<'a>,
    pub prints: &'a [u32],
    pub ghost printed: { Fingerprints ads.first.ad.words.now ads.first.ad.bytes.now ads.second.ad.words.now ads.second.ad.bytes.now prints.now },
}

impl<'a> PrintedPair<'a> {
    // Where the name of the node x is found, if it is a reference.
    pub fn found_at(self, x: usize) -> Option<usize>
        requires { Stands self.ads.first.ad.words.now self.ads.second.ad.words.now x }
        ensures found { mark_of result ≡ cond ((graph_of self.entry.ads).ref x) (marked ((graph_of self.entry.ads).links x)) 0 }
        ensures small { mark_of result ≤ pair_slots }
    {
        let AdPair { first, second } = self.ads;
        if x < syntax::NODES {
            found_from(first, second, false, self.prints, x)
        } else {
            found_from(second, first, true, self.prints, x - syntax::NODES)
        }
    }

    pub fn find_roots(self) -> Roots
        ensures { RootsOf self.entry.ads result.first_requirements result.second_requirements result.first_rank result.second_rank }
    {
        let AdPair { first, second } = self.ads;
        Roots {
            first_requirements: find_name(first, false, self.prints, b"Requirements"),
            second_requirements: find_name(second, true, self.prints, b"Requirements"),
            first_rank: find_name(first, false, self.prints, b"Rank"),
            second_rank: find_name(second, true, self.prints, b"Rank"),
        }
    }
}

// A root that exists becomes the n-th of the roots.
fn add_root(root: Option<usize>, roots: &mut [usize], n: usize) -> usize
    requires { n < length roots.old }
    ensures roots_after { take result roots.new ≡ take n roots.old ++ unmarked (mark_of root) }
    ensures few { result ≤ n + 1 }
{
    match root {
        Some(y) => {
            roots[n] = y;
            n + 1
        }
        None => n,
    }
}

// Those that exist, in order.
pub fn list_roots(r: Roots, roots: &mut [usize]) -> usize
    requires { 4 ≤ length roots.old }
    ensures roots_after { take result roots.new ≡ unmarked (mark_of r.first_requirements) ++ (unmarked (mark_of r.second_requirements) ++ (unmarked (mark_of r.first_rank) ++ unmarked (mark_of r.second_rank))) }
    ensures few { result ≤ 4 }
{
    let i = add_root(r.first_requirements, roots, 0);
    let j = add_root(r.second_requirements, roots, i);
    let k = add_root(r.first_rank, roots, j);
    add_root(r.second_rank, roots, k)
}
