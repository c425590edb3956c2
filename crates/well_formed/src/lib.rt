// The check of stored ads: whether any numbers are a stored ad (refusal 10).
#![tactic(auto)]

ghost use Rattle.std.specs.Prelude.{◌≡◌, cond, ◌+◌, ◌≤◌, ◌<◌, length, eqb, Some};
ghost use Rattle.syntax.specs.Bounds.{max_definitions};
ghost use Rattle.ad.specs.Layout.{ad_words, ad_bytes_room};
ghost use Rattle.well_formed.specs.WellFormed.{AnswersRoom, Answers};
ghost use Rattle.well_formed.specs.Inner.Decode.{entry_fits, new_from, row_before, RowsSmall, RowsRoom, RowsOk};

use ad::{Counts, StoredAd};

// What stands in the definitions from one on.
#[derive(Clone, Copy, PartialEq, Eq)]
pub struct Rows {
    // How many definitions and nodes there are then.
    pub counts: Counts,
    // The place behind their bytes.
    pub end: usize,
    // How long they print with two bytes behind each.
    pub print: usize,
}

// What a stored ad has: how many definitions and nodes, and how long it prints.
#[derive(Clone, Copy, PartialEq, Eq)]
pub struct Checked {
    pub counts: Counts,
    pub print_length: usize,
}

// Whether definition j's name begins at o, and its nodes at n.
fn entry_fits(ad: StoredAd<'_>, j: usize, n: usize, o: usize) -> bool
    requires { j < max_definitions }
    ensures { result ≡ entry_fits ad.entry.words.now ad.entry.bytes.now j n o }
{
    let len = ad.name_length(j);
    let root = ad.root(j);
    tree_check::stands(ad.bytes, o, ad.offset(j), len)
        && lexemes::is_name(ad.part(o, len))
        && n <= root
        && root < syntax::NODES
}

// None from here on, where d definitions and n nodes were before, and o bytes.
fn no_rows(d: usize, n: usize, o: usize) -> Rows
    ensures { result ≡ record { counts = record { definitions = d; nodes = n }; end = o; print = 0 } }
{
    let counts = Counts {
        definitions: d,
        nodes: n,
    };
    Rows {
        counts: counts,
        end: o,
        print: 0,
    }
}

// A definition whose name has this many bytes and whose expression prints this many, before others.
fn with_row(len: usize, print: usize, rest: Rows) -> Rows
    requires { (len ≤ 64) × (print < 100000) × RowsSmall (Some rest) }
    ensures { Some result ≡ row_before len print (Some rest) }
{
    Rows {
        print: len + print + 5 + rest.print,
        ..rest
    }
}

// The definitions from j on, whose nodes begin at n and whose bytes begin at o; none where they are not well formed.
fn rows_from(ad: StoredAd<'_>, j: usize, n: usize, o: usize) -> Option<Rows>
    requires { RowsRoom ad.words.now ad.bytes.now j n o }
    ensures { RowsOk ad.entry.words.now ad.entry.bytes.now j n o result }
{
    if syntax::DEFINITIONS <= j {
        return Some(no_rows(j, n, o));
    }
    let len = ad.name_length(j);
    if len == 0 {
        return Some(no_rows(j, n, o));
    }
    if !entry_fits(ad, j, n, o) {
        return None;
    }
    let root = ad.root(j);
    let tree = tree_check::visit(ad, n, root, o + len)?;
    if syntax::LEVELS < tree.level {
        return None;
    }
    let rest = rows_from(ad, j + 1, root + 1, tree.end)?;
    Some(with_row(len, tree.print, rest))
}

// Whether the names of d definitions are distinct.
fn distinct(ad: StoredAd<'_>, d: usize) -> bool
    requires { d ≤ max_definitions }
    ensures { result ≡ new_from ad.entry.words.now ad.entry.bytes.now 0 d }
{
    for j in 0..d {
        if ad.defined(j, ad.name(j)) {
            return false;
        }
    }
    true
}

// How long an ad of d definitions prints, which print t bytes with two behind each.
fn print_length(d: usize, t: usize) -> usize
    ensures { result ≡ cond (eqb d 0) 2 t }
{
    if d == 0 { 2 } else { t }
}

// The check over exactly the room of an ad.
fn check_room(ad: StoredAd<'_>) -> Option<Checked>
    requires { (length ad.words.now ≡ ad_words) × (length ad.bytes.now ≡ ad_bytes_room) }
    ensures { AnswersRoom ad.entry.words.now ad.entry.bytes.now result }
{
    let rows = rows_from(ad, 0, 0, 0)?;
    let Counts { definitions, nodes } = rows.counts;
    let apart = distinct(ad, definitions);
    let clear = unused_room::zero_behind(ad.words, ad.bytes, definitions, nodes, rows.end);
    if apart && clear {
        Some(Checked {
            counts: rows.counts,
            print_length: print_length(definitions, rows.print),
        })
    } else {
        None
    }
}

// Whether some memory is a stored ad, exactly as some text would leave it: what it has; none where it is no stored ad.
pub fn check(words: &[u64], bytes: &[u8]) -> Option<Checked>
    ensures { Answers words.now bytes.now result }
{
    if words.len() < ad::WORDS || bytes.len() < ad::BYTES {
        return None;
    }
    check_room(StoredAd {
        words: &words[..ad::WORDS],
        bytes: &bytes[..ad::BYTES],
    })
}
