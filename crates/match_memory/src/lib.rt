// The match of two well-formed ads in memory that holds anything: it is cleared first.
#![tactic(auto)]

ghost use Rattle.std.specs.Prelude.{◌≡◌, length};
ghost use Rattle.links.specs.Pair.{pair_slots};
ghost use Rattle.matching.specs.Matching.{table_words, Match};

use links::AdPair;
use matching::Outcome;

// The match of two well-formed ads, in a table of 2,048 slots and a list's room of 2,048 entries, whatever they hold.
pub fn match_formed(ads: AdPair<'_>, table: &mut [u64], list: &mut [u64], budget: u16) -> Outcome
    requires { (length table.old ≡ table_words) × (length list.old ≡ pair_slots) }
    ensures { Match ads.entry.first.ad.words.now ads.entry.first.ad.bytes.now ads.entry.second.ad.words.now ads.entry.second.ad.bytes.now budget table.new list.new result }
{
    table.fill(0);
    list.fill(0);
    let mut target = [0usize; links::SLOTS];
    let mut flag = [0usize; links::SLOTS];
    matching::match_marked(ads, &mut target, &mut flag, list, table, budget)
}
