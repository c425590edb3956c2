// The transitions that resolve names, and those of the list searches, which write the list.
#![tactic(auto)]

ghost use Rattle.std.specs.Prelude.{◌≡◌, List, ℕ, ◌≤◌, ◌<◌, length};
ghost use Rattle.graph.specs.Graph.{Graph};
ghost use Rattle.graph.specs.Transition.{back, marked, transition};
ghost use Rattle.graph.specs.declared.Place.TheVariants.{Resolving, Between, Inside};
ghost use Rattle.marks.specs.Inner.Memory.{view, nodes_of, marks_room, mark_words, AtNode, AtStart, AtLink, AtLast, Grows};

use graph::Place;
use marks::{Mark, Position};

// The mark that names a node, if there is one.
fn mark(node: Option<usize>) -> usize
    requires { marked (nodes_of node) < 18446744073709551616 }
    ensures { result ≡ marked (nodes_of node) }
{
    node.map_or(0, |y| y + 1)
}

// The node x, the i-th of n, is resolved: its name is found at a node, or at none.
pub fn resolve(i: usize, n: usize, x: usize, found: Option<usize>, target: &mut [usize]) -> Place
    requires { (i < n) × (x < length target.old) × (marked (nodes_of found) < 18446744073709551616) }
    ensures { (G : Graph) (len : ℕ) (ma fl ls : List ℕ) → AtNode G i n x (marked (nodes_of found)) → view result len target.new ma fl ls ≡ transition G (view (Resolving i) len target.old ma fl ls) }
{
    target[x] = mark(found);
    if i + 1 < n {
        Place::Resolving(i + 1)
    } else {
        Place::Starting(0)
    }
}

// List search k begins at y, unless y is in the list already.
pub fn begin(k: usize, y: usize, marks: &mut [u16]) -> Place
    requires { (k < 4096) × (y < marks_room) × (mark_words ≤ length marks.old) }
    ensures { (G : Graph) (len : ℕ) (ta fl ls : List ℕ) → AtStart G k y → view result len ta marks.new fl ls ≡ transition G (view (Between k) len ta marks.old fl ls) }
{
    if marks::read(marks, y, Mark::Stamp) == 2 {
        return Place::Between(k + 1);
    }
    marks::enter(marks, y, 2, 0);
    Place::Inside(k, y)
}

// List search k is at x, and follows its need i, to y: the need is done with if y was seen, and otherwise y is entered.
pub fn follow(k: usize, x: usize, y: usize, i: usize, marks: &mut [u16]) -> Place
    requires { (x < marks_room) × (y < marks_room) × (i < 3) × (mark_words ≤ length marks.old) }
    ensures { (G : Graph) (len : ℕ) (ta fl ls : List ℕ) → AtLink G x y i ta marks.old fl → view result len ta marks.new fl ls ≡ transition G (view (Inside k x) len ta marks.old fl ls) }
{
    if marks::read(marks, y, Mark::Stamp) == 2 {
        marks::write(marks, x, Mark::Followed, i + 1);
        return Place::Inside(k, x);
    }
    marks::enter(marks, y, 2, x + 1);
    Place::Inside(k, y)
}

// Where list search k goes on from a node that was entered from the node that is given, if any.
fn back_from(k: usize, from: Option<usize>) -> Place
    requires { k < 4096 }
    ensures { result ≡ back k (nodes_of from) }
{
    match from {
        Some(p) => Place::Inside(k, p),
        None => Place::Between(k + 1),
    }
}

// List search k leaves x, which has no need left and was entered from a node or none, and writes its entry.
pub fn leave(k: usize, x: usize, from: Option<usize>, len: usize, list: &mut [u64]) -> Position
    requires { (k < 4096) × (x < marks_room) × (len < length list.old) }
    ensures rule { (G : Graph) (ta ma fl : List ℕ) → AtLast G x (nodes_of from) ta ma fl → view result.place result.len ta ma fl list.new ≡ transition G (view (Inside k x) len ta ma fl list.old) }
    ensures room { Grows len result.len list.old list.new }
{
    list[len] = (x + 1) as u64;
    Position {
        place: back_from(k, from),
        len: len + 1,
    }
}
