// What the outcomes of a roster come to: the words of each, and the report.
#![tactic(auto)]

ghost use Rattle.std.specs.Prelude.{◌≡◌, ◌+◌, ◌*◌, ◌≤◌, length};
ghost use Rattle.std.proofs.lemmas.List.Edits.{sets};
ghost use Rattle.tally.specs.Tally.{row_of};
ghost use Rattle.tally.specs.Inner.Counting.{Few, Plus};

use matching::Outcome;
use syntax::Refusal;

// The words of one outcome.
pub const ROW: usize = 8;

// How many lines there are, how many of them matched, did not match and were refused, and the sum of the job's ranks over those that
// matched.
#[derive(Clone, Copy, Default)]
pub struct Report {
    pub lines: usize,
    pub matched: usize,
    pub unmatched: usize,
    pub refused: usize,
    pub rank_sum: u64,
}

// The words of the outcome of one line: those of a match, and the place of a refusal.
fn row_of(outcome: Result<Outcome, Refusal>) -> [u64; ROW]
    ensures { result ≡ row_of outcome }
{
    let [a, b, c, d, e, f, g] = c_outcomes::outcome_numbers(outcome);
    let place = match outcome {
        Ok(_) => 0,
        Err(refusal) => refusal.place as u64,
    };
    [a, b, c, d, e, f, g, place]
}

// Writes the outcome of line i.
pub fn store_row(rows: &mut [u64], i: usize, outcome: Result<Outcome, Refusal>)
    requires { 8 * i + 8 ≤ length rows.old }
    ensures { rows.new ≡ sets rows.old (8 * i) (row_of outcome) }
{
    let at = ROW * i;
    rows[at..at + ROW].copy_from_slice(&row_of(outcome));
}

// The report with one outcome more.
pub fn counted(report: Report, outcome: Result<Outcome, Refusal>) -> Report
    requires { Few report }
    ensures { Plus report outcome result }
{
    let report = Report {
        lines: report.lines + 1,
        ..report
    };
    match outcome {
        Err(_) => Report {
            refused: report.refused + 1,
            ..report
        },
        Ok(Outcome::Finished(true, first_rank, _, _, _)) => Report {
            matched: report.matched + 1,
            rank_sum: report.rank_sum + first_rank as u64,
            ..report
        },
        Ok(Outcome::Finished(false, _, _, _, _)) => Report {
            unmatched: report.unmatched + 1,
            ..report
        },
        // No line's match ends so, as its budget covers every list.
        Ok(Outcome::Unfinished(_, _)) => report,
    }
}
