// The lines behind a match: the verdict with its reasons, the ranks and the steps.
#![tactic(auto)]

use cli_output::Output;
use cli_stored::TwoAds;
use matching::Outcome;
use slots::Slot;
use values::Value;

// An ad's Requirements, where it is not true or not there.
fn reason(out: &mut Output, second: bool, ads: TwoAds<'_>, table: &[u64]) {
    let Some(node) = cli_stored::find(ads.ad(second), b"Requirements") else {
        out.side(second);
        out.say(b" ad has no Requirements\n");
        return;
    };
    let slot = results::value_at(table, second, node);
    if matches!(slot, Slot::Held(Value::Boolean(true))) {
        return;
    }
    out.side(second);
    out.say(b" Requirements is ");
    cli_values::slot(out, slot, ads);
    out.byte(b'\n');
}

fn verdict(out: &mut Output, matched: bool, ads: TwoAds<'_>, table: &[u64]) {
    if matched {
        out.say(b"matched\n");
        return;
    }
    out.say(b"unmatched\n");
    reason(out, false, ads, table);
    reason(out, true, ads, table);
}

fn ranks(out: &mut Output, first: u32, second: u32) {
    out.counted(b"first rank ", first as u64);
    out.counted(b"\nsecond rank ", second as u64);
    out.byte(b'\n');
}

fn steps(out: &mut Output, done: usize, length: usize) {
    out.counted(b"steps ", done as u64);
    out.counted(b" of ", length as u64);
    out.byte(b'\n');
}

// What a match gave, which left the table and a list of this length.
pub fn outcome(out: &mut Output, outcome: Outcome, ads: TwoAds<'_>, table: &[u64], length: usize) {
    match outcome {
        Outcome::Finished(matched, i, j, done, _) => {
            verdict(out, matched, ads, table);
            ranks(out, i, j);
            steps(out, done, length);
        }
        Outcome::Unfinished(done, _) => {
            out.say(b"not done\n");
            steps(out, done, length);
        }
    }
}
