// The list of a match, entry by entry.
#![tactic(auto)]

use ad::StoredAd;
use cli_output::Output;
use cli_stored::TwoAds;

// How many entries the list has: 0 is none.
pub fn entry_count(list: &[u64]) -> usize {
    list.iter()
        .position(|&entry| entry == 0)
        .unwrap_or(list.len())
}

// The definition that a node belongs to, and its expression.
fn node_line(out: &mut Output, ad: StoredAd<'_>, node: usize) {
    out.say(holders::definition_name(ad.words, ad.bytes, node));
    out.say(b": ");
    let mut text = [0u8; 16384];
    match inspection::expression(ad.words, ad.bytes, node, &mut text) {
        Ok(n) => out.say(parts::cut(&text, 0, n)),
        Err(_) => out.say(b"(printed text over 16,384 bytes)"),
    }
}

// One entry, 1,024 · side + node, the k-th of the list.
fn entry(out: &mut Output, ads: TwoAds<'_>, table: &[u64], k: usize, place: u64) {
    let node = (place % 1024) as usize;
    let far = 1024 <= place;
    out.number(k as u64);
    if far {
        out.say(b" second ");
    } else {
        out.say(b" first ");
    }
    node_line(out, ads.ad(far), node);
    out.say(b" -> ");
    let slot = results::value_at(table, far, node);
    cli_values::slot(out, slot, ads);
    out.byte(b'\n');
}

pub fn entries(out: &mut Output, ads: TwoAds<'_>, table: &[u64], list: &[u64]) {
    for i in 0..list.len() {
        if list[i] == 0 {
            return;
        }
        entry(out, ads, table, i + 1, list[i] - 1);
    }
}
