// What the C function of a roster does: it calls `match_roster` and leaves its answer in numbers (docs/LAYOUT.md).
#![tactic(auto)]

ghost use Rattle.std.specs.Prelude.{◌≡◌};
ghost use Rattle.c_roster.specs.Roster.{roster_numbers, RosterReported};

use syntax::Refusal;
use tally::Report;

// What the roster answers, as six numbers.
fn roster_numbers(answer: Result<Report, Refusal>) -> [u64; 6]
    ensures { result ≡ roster_numbers answer }
{
    match answer {
        Err(refusal) => [u64::from(refusal.reason.number()), 0, 0, 0, 0, 0],
        Ok(r) => [
            0,
            r.lines as u64,
            r.matched as u64,
            r.unmatched as u64,
            r.refused as u64,
            r.rank_sum,
        ],
    }
}

// Matches any numbers that may be a stored job with every line of any text, in any lent memory.
pub fn match_roster(
    job_words: &[u64],
    job_bytes: &[u8],
    text: &[u8],
    words: &mut [u64],
    bytes: &mut [u8],
    table: &mut [u64],
    list: &mut [u64],
    outcomes: &mut [u64],
    answer: &mut [u64; 6],
)
    ensures { RosterReported job_words.now job_bytes.now text.now words.old bytes.old table.old list.old outcomes.old words.new bytes.new table.new list.new outcomes.new answer.new }
{
    let report = roster::match_roster(
        job_words, job_bytes, text, words, bytes, table, list, outcomes,
    );
    *answer = roster_numbers(report);
}
