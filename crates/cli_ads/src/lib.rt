// The commands of one ad: check and print.
#![tactic(auto)]

use cli_output::Output;
use syntax::Refusal;

// Says that the text of the file i is refused.
pub fn refused(out: &mut Output, i: usize, text: &[u8], refusal: Refusal) {
    out.argument(i);
    cli_refusals::refused(out, text, refusal);
}

fn check_text(out: &mut Output, i: usize, text: &[u8]) {
    let mut words = [0u64; ad::WORDS];
    let mut bytes = [0u8; ad::BYTES];
    match reader::read(text, &mut words, &mut bytes) {
        Ok(counts) => {
            out.argument(i);
            out.accepted(counts.definitions, counts.nodes);
        }
        Err(refusal) => refused(out, i, text, refusal),
    }
}

fn check_file(rt: &HostRuntime, out: &mut Output, i: usize) {
    let mut text = [0u8; 16385];
    if let Some(k) = cli_input::read_argument(rt, i, &mut text) {
        check_text(out, i, parts::cut(&text, 0, k));
    }
}

// Once standard output is lost, nothing is said of the files that are left, not even that one cannot be read.
pub fn check_files(rt: &HostRuntime, out: &mut Output, count: usize) {
    for i in 2..count {
        if out.is_lost() {
            return;
        }
        check_file(rt, out, i);
    }
}

// A refusal of the print is about no byte of a text.
fn print_stored(out: &mut Output, words: &[u64], bytes: &[u8]) {
    let mut text = [0u8; 16384];
    match printer::print(words, bytes, &mut text) {
        Ok(n) => {
            out.say(parts::cut(&text, 0, n));
            out.byte(b'\n');
        }
        Err(refusal) => refused(out, 2, b"", refusal),
    }
}

fn print_text(out: &mut Output, text: &[u8]) {
    let mut words = [0u64; ad::WORDS];
    let mut bytes = [0u8; ad::BYTES];
    match reader::read(text, &mut words, &mut bytes) {
        Ok(_) => print_stored(out, &words, &bytes),
        Err(refusal) => refused(out, 2, text, refusal),
    }
}

pub fn print_file(rt: &HostRuntime, out: &mut Output) {
    let mut text = [0u8; 16385];
    if let Some(k) = cli_input::read_argument(rt, 2, &mut text) {
        print_text(out, parts::cut(&text, 0, k));
    }
}
