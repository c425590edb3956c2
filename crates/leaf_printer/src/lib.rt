// Printing: the literal or reference at one stored node.
#![tactic(auto)]

ghost use Rattle.std.specs.Prelude.{eqb};
ghost use Rattle.syntax.specs.Tree.{boolean};
ghost use Rattle.syntax.specs.Print.{literal_text};
ghost use Rattle.writer.specs.Inner.Put.{Near, Puts};
ghost use Rattle.leaf_printer.specs.Inner.Post.{LeafFits, LeafWritten};

use ad::{Kind, StoredAd};
use writer::put;

#[tactic(auto, unfolding(syntax::specs::Print::literal_text, text::specs::Bytes::bytes))]
fn put_boolean(x: usize, out: &mut [u8], at: usize) -> usize
    requires { Near at (literal_text (boolean (eqb x 1))) }
    ensures { Puts (literal_text (boolean (eqb x 1))) out.old at out.new result }
{
    if x == 1 {
        put(b"true", out, at)
    } else {
        put(b"false", out, at)
    }
}

// Writes the literal or reference at node i.
pub fn put_leaf(ad: StoredAd<'_>, i: usize, out: &mut [u8], at: usize) -> usize
    requires { LeafFits ad.words.now ad.bytes.now i at }
    ensures { LeafWritten ad.entry.words.now ad.entry.bytes.now i at out.old out.new result }
{
    let x = ad.operand(i, 0);
    let y = ad.operand(i, 1);
    match ad.kind(i).unwrap() {
        Kind::Undefined => put(b"undefined", out, at),
        Kind::Error => put(b"error", out, at),
        Kind::Boolean => put_boolean(x, out, at),
        Kind::Integer => writer::put_decimal(x as u64, out, at),
        Kind::Real => writer::put_real(x as u64, y as u64, out, at),
        Kind::String => writer::put_string(ad.part(x, y), out, at),
        Kind::Own => put(ad.part(x, y), out, at),
        _ => {
            let m = put(b"other.", out, at);
            put(ad.part(x, y), out, m)
        }
    }
}
