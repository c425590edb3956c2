// The transitions of the loop searches, which find the strongly connected components, n searches in all: a search begins, and follows a
// link.
#![tactic(auto)]

ghost use Rattle.std.specs.Prelude.{◌≡◌, List, ℕ, ◌+◌, ◌*◌, ◌≤◌, ◌<◌, length, set};
ghost use Rattle.graph.specs.Graph.{Graph};
ghost use Rattle.graph.specs.Transition.{searched_to, transition};
ghost use Rattle.graph.specs.declared.Place.TheVariants.{Starting, Searching};
ghost use Rattle.marks.specs.Inner.Memory.{view, Flagged, flagged_at, AtSeek, AtLoopLink, marks_room, mark_words};

use graph::Place;
use marks::Mark;

// A loop search, the k-th, that is at the node x: the newest open node and its height, and the least height to which x is known to lead.
#[derive(Clone, Copy)]
pub struct Search {
    pub k: usize,
    pub x: usize,
    pub top: usize,
    pub high: usize,
    pub low: usize,
    pub ghost at_slot: { x < marks_room },
}

impl Search {
    // The place where it goes on at x, which leads to the height low.
    fn at(self, low: usize) -> Place
        ensures { result ≡ Searching self.k self.x self.top self.high low }
    {
        Place::Searching(self.k, self.x, self.top, self.high, low)
    }
}

// Where the traversal goes on when k of n loop searches are done.
#[tactic(auto, unfolding(graph::specs::Transition::searched_to))]
pub fn searched_to(k: usize, n: usize) -> Place
    ensures { (G : Graph) → n ≡ G.size → result ≡ searched_to G k }
{
    if k < n {
        Place::Starting(k)
    } else {
        Place::Between(0)
    }
}

// Loop search k begins at y, unless y was seen.
pub fn seek(k: usize, n: usize, y: usize, marks: &mut [u16]) -> Place
    requires { (k < 4096) × (y < marks_room) × (mark_words ≤ length marks.old) }
    ensures { (G : Graph) (len : ℕ) (ta fl ls : List ℕ) → AtSeek G k n y → view result len ta marks.new fl ls ≡ transition G (view (Starting k) len ta marks.old fl ls) }
{
    if marks::read(marks, y, Mark::Stamp) == 1 {
        return searched_to(k + 1, n);
    }
    marks::enter(marks, y, 1, 0);
    marks::put_on(marks, y, 1, 0, 0);
    Place::Searching(k, y, y, 1, 1)
}

// The link i of x is done with; it closes a cycle where it goes to an open node, and flags x if x is a reference.
#[tactic(auto, unfolding(marks::specs::Inner::Memory::flagged_at))]
fn pass(marks: &mut [u16], flag: &mut [usize], x: usize, i: usize, closes: bool)
    requires { (x < marks_room) × (x < length flag.old) × (i < 3) × (mark_words ≤ length marks.old) }
    ensures { (marks.new ≡ set marks.old (x * 6 + 2) (i + 1)) × (flag.new ≡ flagged_at flag.old x closes) }
{
    marks::write(marks, x, Mark::Followed, i + 1);
    if closes {
        flag[x] = 1;
    }
}

// A loop search follows the link i of its node, to y: y is entered if it was not seen; otherwise the link is done with, and where y is
// open, the node leads to its height.
pub fn explore(
    s: Search,
    y: usize,
    i: usize,
    refers: bool,
    marks: &mut [u16],
    flag: &mut [usize],
) -> Place
    requires place { (s.top < marks_room) × (s.high < 65535) × (s.low < 65536) × (i < 3) × (y < marks_room) }
    requires room { (mark_words ≤ length marks.old) × (s.x < length flag.old) }
    ensures ls_after { (G : Graph) (len : ℕ) (ta ls : List ℕ) → AtLoopLink G s.x y i refers ta marks.old → view result len ta marks.new flag.new ls ≡ transition G (view (Searching s.k s.x s.top s.high s.low) len ta marks.old flag.old ls) }
    ensures flags { Flagged s.x flag.old flag.new }
{
    if marks::read(marks, y, Mark::Stamp) == 1 {
        let h = marks::read(marks, y, Mark::Height);
        if h == 0 {
            marks::write(marks, s.x, Mark::Followed, i + 1);
            return s.at(s.low);
        }
        pass(marks, flag, s.x, i, refers);
        return s.at(s.low.min(h));
    }
    marks::enter(marks, y, 1, s.x + 1);
    marks::put_on(marks, y, s.high + 1, s.top + 1, s.low);
    Place::Searching(s.k, y, y, s.high + 1, s.high + 1)
}
