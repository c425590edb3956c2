// What one line of a roster gives: its refusal, or the match of the job with its bench.
#![tactic(auto)]

ghost use Rattle.std.specs.Prelude.{◌≡◌, length};
ghost use Rattle.links.specs.Pair.{pair_slots};
ghost use Rattle.matching.specs.Matching.{table_words, Match};
ghost use Rattle.line_match.specs.LineMatch.{LineLeaves, line_budget};
ghost use Rattle.line_match.specs.Inner.Asked.{LineRoom};

use ad::StoredAd;
use links::{AdPair, FormedAd};
use matching::Outcome;
use syntax::{Reason, Refusal};

// The budget of every line's match, which covers every list.
pub const BUDGET: u16 = 65_535;

// The match of the job with one bench.
fn match_bench<'a>(
    job: FormedAd<'a>,
    bench: FormedAd<'a>,
    table: &mut [u64],
    list: &mut [u64],
) -> Outcome
    requires { (length table.old ≡ table_words) × (length list.old ≡ pair_slots) }
    ensures { Match job.entry.ad.words.now job.entry.ad.bytes.now bench.entry.ad.words.now bench.entry.ad.bytes.now line_budget table.new list.new result }
{
    let ads = AdPair {
        first: job,
        second: bench,
    };
    match_memory::match_formed(ads, table, list, BUDGET)
}

// The outcome of one line, in exactly the room of an ad and of a match, whatever they hold. A bench that was just read is not checked
// again.
pub fn line_outcome(
    job: FormedAd<'_>,
    line: &[u8],
    words: &mut [u64],
    bytes: &mut [u8],
    table: &mut [u64],
    list: &mut [u64],
) -> Result<Outcome, Refusal>
    requires { LineRoom words.old bytes.old table.old list.old }
    ensures { LineLeaves job.entry.ad.words.now job.entry.ad.bytes.now line.now words.new bytes.new table.new list.new result }
{
    let tab = lines::find(line, 0, b'\t');
    if line.len() <= tab {
        return Err(Refusal {
            reason: Reason::Misfit,
            place: tab,
        });
    }
    let counts = reader::read(&line[tab + 1..], words, bytes)?;
    let ad = StoredAd { words, bytes };
    let bench = FormedAd { ad, counts };
    Ok(match_bench(job, bench, table, list))
}
