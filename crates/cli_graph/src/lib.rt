// The references between the definitions of two ads, as a text for Graphviz.
#![tactic(auto)]

ghost use Rattle.std.specs.Prelude.{◌<◌};
ghost use Rattle.syntax.specs.Bounds.{max_nodes};

use ad::{Kind, StoredAd};
use cli_output::Output;
use cli_stored::TwoAds;

// What names a box: the side, a point and the name in lower case, so that a reference finds it.
fn identity(out: &mut Output, second: bool, name: &[u8]) {
    let mut lower = [0u8; 64];
    let n = name.len().min(64);
    for i in 0..n {
        lower[i] = text::lower(name[i]);
    }
    out.byte(b'"');
    out.side(second);
    out.byte(b'.');
    out.say(&lower[..n]);
    out.byte(b'"');
}

fn definition(out: &mut Output, second: bool, name: &[u8]) {
    out.say(b"    ");
    identity(out, second, name);
    out.say(b" [label=\"");
    out.say(name);
    out.say(b"\"];\n");
}

fn definitions(out: &mut Output, second: bool, ad: StoredAd<'_>) {
    for j in 0..syntax::DEFINITIONS {
        let name = ad.name(j);
        if name.is_empty() {
            return;
        }
        definition(out, second, name);
    }
}

fn frame(out: &mut Output, second: bool, ad: StoredAd<'_>) {
    out.say(b"  subgraph cluster_");
    out.side(second);
    out.say(b" {\n    label=\"");
    out.side(second);
    out.say(b"\";\n");
    definitions(out, second, ad);
    out.say(b"  }\n");
}

// The box of a definition that an ad lacks, in its frame.
fn absent(out: &mut Output, second: bool, name: &[u8]) {
    out.say(b"  subgraph cluster_");
    out.side(second);
    out.say(b" { ");
    identity(out, second, name);
    out.say(b" [label=\"");
    out.say(name);
    out.say(b"\", style=dashed]; }\n");
}

// A reference: the definition it stands in, the ad and the name it refers to.
#[derive(Clone, Copy)]
struct Reference<'a> {
    second: bool,
    from: &'a [u8],
    far: bool,
    to: &'a [u8],
}

fn arrow(out: &mut Output, reference: Reference<'_>) {
    out.say(b"  ");
    identity(out, reference.second, reference.from);
    out.say(b" -> ");
    identity(out, reference.far, reference.to);
}

fn missing(out: &mut Output, reference: Reference<'_>) {
    absent(out, reference.far, reference.to);
    arrow(out, reference);
    out.say(b" [label=\"absent\", style=dashed];\n");
}

fn found(out: &mut Output, reference: Reference<'_>, circular: bool) {
    arrow(out, reference);
    if circular {
        out.say(b" [label=\"circular\", color=red]");
    }
    out.say(b";\n");
}

// A reference, node i of an ad; `far` says in which ad its name is looked up.
fn draw_reference(
    out: &mut Output,
    second: bool,
    ads: TwoAds<'_>,
    i: usize,
    far: bool,
    circular: bool,
)
    requires { i < max_nodes }
{
    let ad = ads.ad(second);
    let reference = Reference {
        second,
        from: holders::definition_name(ad.words, ad.bytes, i),
        far,
        to: ad.reference_name(i),
    };
    match cli_stored::find(ads.ad(far), reference.to) {
        Some(_) => found(out, reference, circular),
        None => missing(out, reference),
    }
}

// A node of an ad, where it is a reference: `name` is looked up here, and `other.name` in the other ad.
fn node(out: &mut Output, second: bool, ads: TwoAds<'_>, i: usize, circular: bool)
    requires { i < max_nodes }
{
    match ads.ad(second).kind(i) {
        Some(Kind::Own) => draw_reference(out, second, ads, i, second, circular),
        Some(Kind::Other) => draw_reference(out, second, ads, i, !second, circular),
        _ => {}
    }
}

// The references of an ad, `second` or the first, in the order of their nodes. The second ad's flags stand behind the first's.
fn references(out: &mut Output, second: bool, ads: TwoAds<'_>, flags: &[usize; 2048]) {
    for i in 0..syntax::NODES {
        let slot = if second { syntax::NODES + i } else { i };
        node(out, second, ads, i, flags[slot] == 1);
    }
}

pub fn draw(out: &mut Output, ads: TwoAds<'_>, flags: &[usize; 2048]) {
    out.say(b"digraph classad {\n  rankdir=LR;\n  node [shape=box];\n");
    frame(out, false, ads.first);
    frame(out, true, ads.second);
    references(out, false, ads, flags);
    references(out, true, ads, flags);
    out.say(b"}\n");
}
