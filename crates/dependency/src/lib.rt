// Dependencies: the traversal of two stored ads, which finds the circular references and the list.
#![tactic(auto)]

ghost use Rattle.std.specs.Prelude.{◌≡◌, cond, ◌<◌, length, replicate, ltb};
ghost use Rattle.graph.specs.declared.Place.TheVariants.{Resolving, Between};
ghost use Rattle.links.specs.Graphs.{graph_of, RootsOf};
ghost use Rattle.marks.specs.Inner.Memory.{mark_words};
ghost use Rattle.dependency.specs.Traversal.{Traversed};
ghost use Rattle.dependency.specs.Inner.Asked.{ended_at, Ready};

use graph::Place;
use links::AdPair;
use lookup::{PrintedPair, Roots};
use marks::Position;

// How many transitions the traversal took, how long the list is, and where it began.
#[derive(Clone, Copy)]
pub struct Traversal {
    pub count: usize,
    pub length: usize,
    pub roots: Roots,
}

// How many transitions a run of them took, and how long the list is.
#[derive(Clone, Copy)]
struct Taken {
    count: usize,
    length: usize,
}

// Where the traversal of n nodes begins.
fn first_place(n: usize) -> Place
    ensures { result ≡ cond (ltb 0 n) (Resolving 0) (Between 0) }
{
    if 0 < n {
        Place::Resolving(0)
    } else {
        Place::Between(0)
    }
}

// Whether no list search is left of n.
fn ended(place: Place, n: usize) -> bool
    ensures { result ≡ ended_at place n }
{
    match place {
        Place::Between(k) => n <= k,
        _ => false,
    }
}

// The transitions one after another, until no search is left.
fn run(
    pair: PrintedPair<'_>,
    roots: &[usize],
    target: &mut [usize],
    marks: &mut [u16],
    flag: &mut [usize],
    list: &mut [u64],
) -> Taken
    requires roots { roots.now ≡ (graph_of pair.ads).roots }
    requires ready { Ready target.old flag.old list.old × (marks.old ≡ replicate mark_words 0) }
    ensures { Traversed (graph_of pair.entry.ads) result.count result.length target.new flag.new list.new }
{
    let n = roots.len();
    let mut s = Position {
        place: first_place(pair.ads.size()),
        len: 0,
    };
    let mut count: usize = 0;
    while !ended(s.place, n) {
        s = transitions::transition(pair, roots, s, target, marks, flag, list);
        count += 1;
    }
    Taken {
        count,
        length: s.len,
    }
}

// The traversal of two stored ads: from clear targets, flags and an empty list, each of 2,048 numbers or more, to the targets and flags
// of their references and the list. The other marks are its own.
pub fn traverse(
    ads: AdPair<'_>,
    target: &mut [usize],
    flag: &mut [usize],
    list: &mut [u64],
) -> Traversal
    requires { Ready target.old flag.old list.old }
    ensures traversed { Traversed (graph_of ads.entry) result.count result.length target.new flag.new list.new }
    ensures roots { RootsOf ads.entry result.roots.first_requirements result.roots.second_requirements result.roots.first_rank result.roots.second_rank }
{
    let mut prints = [0u32; 512];
    lookup::fingerprints(ads, &mut prints);
    let pair = PrintedPair {
        ads,
        prints: &prints,
    };
    let r = pair.find_roots();
    let mut room = [0usize; 4];
    let n = lookup::list_roots(r, &mut room);
    let mut marks = [0u16; 12288];
    let t = run(pair, &room[..n], target, &mut marks, flag, list);
    Traversal {
        count: t.count,
        length: t.length,
        roots: r,
    }
}
