// The transitions of the loop searches that leave a node which has no link left, and close a component's nodes.
#![tactic(auto)]

ghost use Rattle.std.specs.Prelude.{◌≡◌, List, ℕ, ◌≤◌, ◌<◌, length};
ghost use Rattle.graph.specs.Graph.{Graph};
ghost use Rattle.graph.specs.Transition.{back_open, back_closed, next_open, transition};
ghost use Rattle.graph.specs.declared.Place.TheVariants.{Searching, Closing};
ghost use Rattle.marks.specs.Inner.Memory.{view, nodes_of, marks_room, mark_words, AtLoopLast, AtClose};

use components::{Search, searched_to};
use graph::Place;
use marks::Mark;

// Where loop search k goes on from a node that stays open, and was entered from the node that is given, if any.
fn back_open(k: usize, n: usize, from: Option<usize>, top: usize, high: usize, low: usize) -> Place
    requires { k < 4096 }
    ensures { (G : Graph) → n ≡ G.size → result ≡ back_open G k (nodes_of from) top high low }
{
    match from {
        Some(p) => Place::Searching(k, p, top, high, low),
        None => searched_to(k + 1, n),
    }
}

// Where it goes on from a node that is closed, and was entered from one; below is the next older open node.
fn back_closed(
    k: usize,
    n: usize,
    from: Option<usize>,
    below: Option<usize>,
    high: usize,
    low: usize,
) -> Place
    requires { k < 4096 }
    ensures { (G : Graph) → n ≡ G.size → result ≡ back_closed G k (nodes_of from) (nodes_of below) high low }
{
    match (from, below) {
        (Some(p), Some(q)) => Place::Searching(k, p, q, high, low),
        _ => searched_to(k + 1, n),
    }
}

// Where it goes on when an open node newer than x is closed; below is the next older one.
fn next_open(k: usize, n: usize, x: usize, below: Option<usize>, high: usize) -> Place
    requires { k < 4096 }
    ensures { (G : Graph) → n ≡ G.size → result ≡ next_open G k x (nodes_of below) high }
{
    match below {
        Some(q) => Place::Closing(k, x, q, high),
        None => searched_to(k + 1, n),
    }
}

// A loop search leaves its node, which has no link left: open if the node leads to a height below its own, otherwise to be closed with
// all that is newer.
pub fn retreat(s: Search, n: usize, marks: &[u16]) -> Place
    requires { (s.k < 4096) × (mark_words ≤ length marks.now) }
    ensures { (G : Graph) (len : ℕ) (ta fl ls : List ℕ) → AtLoopLast G n s.x ta marks.now → view result len ta marks.now fl ls ≡ transition G (view (Searching s.k s.x s.top s.high s.low) len ta marks.now fl ls) }
{
    if s.low < marks::read(marks, s.x, Mark::Height) {
        let from = marks::node(marks, s.x, Mark::From);
        let low = s.low.min(marks::read(marks, s.x, Mark::Saved));
        return back_open(s.k, n, from, s.top, s.high, low);
    }
    Place::Closing(s.k, s.x, s.top, s.high)
}

// Loop search k closes the newest open node, top; with x itself the component is complete.
pub fn close(k: usize, n: usize, x: usize, top: usize, high: usize, marks: &mut [u16]) -> Place
    requires { (k < 4096) × (x < marks_room) × (top < marks_room) × (mark_words ≤ length marks.old) }
    ensures { (G : Graph) (len : ℕ) (ta fl ls : List ℕ) → AtClose G n → view result len ta marks.new fl ls ≡ transition G (view (Closing k x top high) len ta marks.old fl ls) }
{
    let rest = high.saturating_sub(1);
    let below = marks::node(marks, top, Mark::Below);
    if top == x {
        let from = marks::node(marks, x, Mark::From);
        let low = marks::read(marks, x, Mark::Saved);
        marks::write(marks, x, Mark::Height, 0);
        return back_closed(k, n, from, below, rest, low);
    }
    marks::write(marks, top, Mark::Height, 0);
    next_open(k, n, x, below, rest)
}
