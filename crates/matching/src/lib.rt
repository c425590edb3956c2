// The match of two stored ads.
#![tactic(auto)]

ghost use Rattle.std.specs.Prelude.{◌≡◌, length, replicate};
ghost use Rattle.links.specs.Pair.{pair_slots};
ghost use Rattle.dependency.specs.Inner.Asked.{Ready};
ghost use Rattle.matching.specs.Matching.{table_words, Match};

use evaluation::Marked;
use links::{AdPair, Sides};

// How many words the table has: two for each slot.
pub const VALUES: usize = 2 * links::SLOTS;

// What a match comes to: verdict, both ranks and steps of a finished one; or the steps done. The last number is how many transitions its
// traversal took.
#[derive(Clone, Copy)]
pub enum Outcome {
    Finished(bool, u32, u32, usize, usize),
    Unfinished(usize, usize),
}

// The match of two well-formed ads, from clear targets and flags, an empty list and a blank table.
pub fn match_marked(
    ads: AdPair<'_>,
    target: &mut [usize],
    flag: &mut [usize],
    list: &mut [u64],
    table: &mut [u64],
    budget: u16,
) -> Outcome
    requires ready { Ready target.old flag.old list.old }
    requires room { (length list.old ≡ pair_slots) × (table.old ≡ replicate table_words 0) }
    ensures { Match ads.entry.first.ad.words.now ads.entry.first.ad.bytes.now ads.entry.second.ad.words.now ads.entry.second.ad.bytes.now budget table.new list.new result }
{
    let t = dependency::traverse(ads, target, flag, list);
    let sides = Sides {
        first: ads.first.ad,
        second: ads.second.ad,
    };
    let marked = Marked {
        sides,
        target,
        flag,
    };
    let steps = running::run(marked, &list[..t.length], 0, budget, table);
    if steps < t.length {
        return Outcome::Unfinished(steps, t.count);
    }
    let answer = verdict::conclude(t.roots, table);
    Outcome::Finished(
        answer.matched,
        answer.first_rank,
        answer.second_rank,
        steps,
        t.count,
    )
}
