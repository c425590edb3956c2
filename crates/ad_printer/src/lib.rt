// Printing: the definitions of a stored ad, between brackets.
#![tactic(auto)]

ghost use Rattle.std.specs.Prelude.{◌+◌};
ghost use Rattle.ad_printer.specs.Inner.Post.{RowFits, RowWritten, TableFits, TableWritten, AdWritten};

use ad::StoredAd;
use writer::{put, put_byte};

// Writes definition j.
fn put_definition(ad: StoredAd<'_>, j: usize, out: &mut [u8], at: usize) -> usize
    requires { RowFits ad.words.now ad.bytes.now j at }
    ensures { RowWritten ad.entry.words.now ad.entry.bytes.now j at out.old out.new result }
{
    let m = put(ad.name(j), out, at);
    let n = put(b" = ", out, m);
    tree_printer::put_tree(ad, ad.root(j), out, n)
}

// Writes the definitions from j up to d.
fn put_definitions(ad: StoredAd<'_>, j: usize, d: usize, out: &mut [u8], at: usize) -> usize
    requires { TableFits ad.words.now ad.bytes.now j d at }
    ensures { TableWritten ad.entry.words.now ad.entry.bytes.now j d at out.old out.new result }
{
    if d <= j {
        return at;
    }
    let m = put_definition(ad, j, out, at);
    let next = j + 1;
    if d <= next {
        return m;
    }
    let n = put(b"; ", out, m);
    put_definitions(ad, next, d, out, n)
}

// Writes an ad of d definitions at the front of the output.
pub fn put_ad(ad: StoredAd<'_>, d: usize, out: &mut [u8])
    requires { TableFits ad.words.now ad.bytes.now 0 d 2 }
    ensures { AdWritten ad.entry.words.now ad.entry.bytes.now d out.old out.new }
{
    put_byte(out, 0, b'[');
    let m = put_definitions(ad, 0, d, out, 1);
    put(b"]", out, m);
}
