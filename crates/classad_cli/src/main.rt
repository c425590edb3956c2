// The command classad over the proved library. docs/COMMANDS.md says what it writes.
#![tactic(auto)]

use ad::{Counts, StoredAd};
use cli_arguments::Request;
use cli_output::Output;
use cli_stored::TwoAds;
use syntax::Refusal;

// What is done with two ads: a match, with a budget, that shows each entry of the list where `trace` asks for it; or a graph.
#[derive(Clone, Copy)]
enum Task {
    Match { trace: bool, budget: u16 },
    Graph,
}

fn match_stored(out: &mut Output, ads: TwoAds<'_>, trace: bool, budget: u16) {
    let mut table = [0u64; 4096];
    let mut list = [0u64; 2048];
    let answer = matcher::match_ads(
        ads.first.words,
        ads.first.bytes,
        ads.second.words,
        ads.second.bytes,
        &mut table,
        &mut list,
        budget,
    );
    if trace {
        cli_trace::entries(out, ads, &table, &list);
    }
    match answer {
        Ok(outcome) => {
            cli_verdict::outcome(out, outcome, ads, &table, cli_trace::entry_count(&list))
        }
        Err(refusal) => refused(out, b"match", refusal),
    }
}

fn graph_stored(out: &mut Output, ads: TwoAds<'_>) {
    let mut flags = [0usize; 2048];
    let mut list = [0u64; 2048];
    let order = ordering::order_ads(
        ads.first.words,
        ads.first.bytes,
        ads.second.words,
        ads.second.bytes,
        &mut flags,
        &mut list,
    );
    match order {
        Ok(_) => cli_graph::draw(out, ads, &flags),
        Err(refusal) => refused(out, b"graph", refusal),
    }
}

// Says that what is asked of two ads is refused, which is about no byte of a text.
fn refused(out: &mut Output, what: &[u8], refusal: Refusal) {
    out.say(what);
    cli_refusals::refused(out, b"", refusal);
}

// Says that the text of the file i was refused, if it was.
fn told(out: &mut Output, i: usize, text: &[u8], answer: Result<Counts, Refusal>) {
    if let Err(refusal) = answer {
        cli_ads::refused(out, i, text, refusal);
    }
}

fn do_task(out: &mut Output, task: Task, ads: TwoAds<'_>) {
    match task {
        Task::Match { trace, budget } => match_stored(out, ads, trace, budget),
        Task::Graph => graph_stored(out, ads),
    }
}

fn pair_texts(out: &mut Output, task: Task, first_text: &[u8], second_text: &[u8]) {
    let mut first = [0u64; ad::WORDS];
    let mut first_bytes = [0u8; ad::BYTES];
    let mut second = [0u64; ad::WORDS];
    let mut second_bytes = [0u8; ad::BYTES];
    let x = reader::read(first_text, &mut first, &mut first_bytes);
    let y = reader::read(second_text, &mut second, &mut second_bytes);
    told(out, 2, first_text, x);
    told(out, 3, second_text, y);
    if x.is_ok() && y.is_ok() {
        let ads = TwoAds {
            first: StoredAd {
                words: &first,
                bytes: &first_bytes,
            },
            second: StoredAd {
                words: &second,
                bytes: &second_bytes,
            },
        };
        do_task(out, task, ads);
    }
}

// Both files are read before anything is said of either.
fn pair_files(rt: &HostRuntime, out: &mut Output, task: Task) {
    let mut s = [0u8; 16385];
    let mut t = [0u8; 16385];
    let p = cli_input::read_argument(rt, 2, &mut s);
    let q = cli_input::read_argument(rt, 3, &mut t);
    if let (Some(i), Some(j)) = (p, q) {
        pair_texts(out, task, parts::cut(&s, 0, i), parts::cut(&t, 0, j));
    }
}

fn main(rt: HostRuntime) {
    let Some(request) = cli_arguments::requested(&rt) else {
        cli_output::misused(&rt);
        return;
    };
    let mut out = Output::new(rt);
    match request {
        Request::Check(count) => cli_ads::check_files(&rt, &mut out, count),
        Request::Print => cli_ads::print_file(&rt, &mut out),
        Request::Match(budget) => {
            pair_files(
                &rt,
                &mut out,
                Task::Match {
                    trace: false,
                    budget,
                },
            )
        }
        Request::Trace(budget) => {
            pair_files(
                &rt,
                &mut out,
                Task::Match {
                    trace: true,
                    budget,
                },
            )
        }
        Request::Graph => pair_files(&rt, &mut out, Task::Graph),
        Request::Help => out.usage(),
        Request::Version => out.version(),
    }
}
