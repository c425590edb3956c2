// A job against a roster: a line for each bench, its outcome, and a report.
#![tactic(auto)]

ghost use Rattle.roster.specs.Roster.{Rostered};
ghost use Rattle.roster.specs.Inner.Progress.{Tested, Lent, Asked, Listed, Cleared};

use links::FormedAd;
use syntax::{Reason, Refusal};
use tally::Report;

// How many lines a roster may have.
pub const LINES: usize = 256;

// How many words their outcomes have room for.
pub const OUTCOMES: usize = LINES * tally::ROW;

// Whether some lent memory is smaller than its room.
fn too_small(
    job_words: &[u64],
    job_bytes: &[u8],
    words: &[u64],
    bytes: &[u8],
    table: &[u64],
    list: &[u64],
    outcomes: &[u64],
) -> bool
    ensures { Tested job_words.now job_bytes.now words.now bytes.now table.now list.now outcomes.now result }
{
    admission::too_small(
        job_words,
        job_bytes,
        words,
        bytes,
        table.len(),
        matching::VALUES,
        list.len(),
    ) || outcomes.len() < OUTCOMES
}

// Every line in turn, in exactly the rooms: the outcomes over zeros, and the report.
fn match_lines(
    job: FormedAd<'_>,
    text: &[u8],
    words: &mut [u64],
    bytes: &mut [u8],
    table: &mut [u64],
    list: &mut [u64],
    outcomes: &mut [u64],
) -> Report
    requires { Asked text.now words.old bytes.old table.old list.old outcomes.old }
    ensures { Listed job.entry.ad.words.now job.entry.ad.bytes.now text.now outcomes.new result }
{
    let mut report = Report::default();
    let mut at = 0;
    while at < text.len() {
        let end = lines::find(text, at, b'\n');
        let outcome = line_match::line_outcome(job, &text[at..end], words, bytes, table, list);
        tally::store_row(outcomes, report.lines, outcome);
        report = tally::counted(report, outcome);
        at = lines::behind(text, end);
    }
    report
}

// The same in rooms that hold anything; the working memory ends zero.
fn match_rooms(
    job: FormedAd<'_>,
    text: &[u8],
    words: &mut [u64],
    bytes: &mut [u8],
    table: &mut [u64],
    list: &mut [u64],
    outcomes: &mut [u64],
) -> Report
    requires { Lent text.now words.old bytes.old table.old list.old outcomes.old }
    ensures listed { Listed job.entry.ad.words.now job.entry.ad.bytes.now text.now outcomes.new result }
    ensures cleared { Cleared words.new bytes.new table.new list.new }
{
    outcomes.fill(0);
    let report = match_lines(job, text, words, bytes, table, list, outcomes);
    words.fill(0);
    bytes.fill(0);
    table.fill(0);
    list.fill(0);
    report
}

// THE JOB AGAINST A ROSTER, whatever is lent.
pub fn match_roster(
    job_words: &[u64],
    job_bytes: &[u8],
    text: &[u8],
    words: &mut [u64],
    bytes: &mut [u8],
    table: &mut [u64],
    list: &mut [u64],
    outcomes: &mut [u64],
) -> Result<Report, Refusal>
    ensures { Rostered job_words.now job_bytes.now text.now words.old bytes.old table.old list.old outcomes.old words.new bytes.new table.new list.new outcomes.new result }
{
    if too_small(job_words, job_bytes, words, bytes, table, list, outcomes) {
        return Err(Reason::MemoryTooSmall.into());
    }
    let job = admission::formed(job_words, job_bytes)?;
    if LINES < lines::count(text) {
        return Err(Reason::TooManyLines.into());
    }
    let report = match_rooms(
        job,
        text,
        &mut words[..ad::WORDS],
        &mut bytes[..ad::BYTES],
        &mut table[..matching::VALUES],
        &mut list[..admission::ENTRIES],
        &mut outcomes[..OUTCOMES],
    );
    Ok(report)
}
