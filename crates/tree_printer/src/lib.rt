// Printing: one stored expression.
#![tactic(auto)]

ghost use Rattle.std.specs.Prelude.{◌≡◌, ◌+◌};
ghost use Rattle.syntax.specs.Print.{printed};
ghost use Rattle.ad.specs.Layout.{code_of};
ghost use Rattle.tree_printer.specs.Inner.Post.{binds_kind, wrapped, Fits, Written};

use ad::{Kind, StoredAd};
use writer::{put, put_byte};

// How tight a node of a kind binds.
#[inline(always)]
fn binding(kind: Kind) -> usize
    ensures { result ≡ binds_kind (code_of kind) }
{
    match kind {
        Kind::Unary(_) => 7,
        Kind::Conditional => 0,
        Kind::Binary(j) => j.binds(),
        _ => 8,
    }
}

// Writes the tree whose last node is i.
pub fn put_tree(ad: StoredAd<'_>, i: usize, out: &mut [u8], at: usize) -> usize
    requires { Fits printed ad.words.now ad.bytes.now i at }
    ensures { Written printed ad.entry.words.now ad.entry.bytes.now i at out.old out.new result }
{
    put_node(&ad, i, out, at)
}

// The same, of an ad that is lent: it is not copied for each node.
#[cycle(tree)]
fn put_node(ad: &StoredAd<'_>, i: usize, out: &mut [u8], at: usize) -> usize
    requires { Fits printed ad.now.words.now ad.now.bytes.now i at }
    ensures { Written printed ad.now.words.now ad.now.bytes.now i at out.old out.new result }
{
    match ad.kind(i).unwrap() {
        Kind::Unary(u) => {
            let m = writer::put_unary(u, out, at);
            put_operand(ad, 7, ad.operand(i, 0), out, m)
        }
        Kind::Conditional => {
            let m = put_operand(ad, 1, ad.operand(i, 0), out, at);
            let n = put(b" ? ", out, m);
            let p = put_node(ad, ad.operand(i, 1), out, n);
            let q = put(b" : ", out, p);
            put_node(ad, ad.operand(i, 2), out, q)
        }
        Kind::Binary(j) => {
            let need = j.binds();
            let m = put_operand(ad, need, ad.operand(i, 0), out, at);
            let n = writer::put_binary(j, out, m);
            put_operand(ad, need + 1, ad.operand(i, 1), out, n)
        }
        _ => leaf_printer::put_leaf(*ad, i, out, at),
    }
}

// The same, in parentheses where it binds looser than need.
#[cycle(tree)]
#[inline(always)]
fn put_operand(ad: &StoredAd<'_>, need: usize, i: usize, out: &mut [u8], at: usize) -> usize
    requires { Fits (wrapped need) ad.now.words.now ad.now.bytes.now i at }
    ensures { Written (wrapped need) ad.now.words.now ad.now.bytes.now i at out.old out.new result }
{
    if need <= binding(ad.kind(i).unwrap()) {
        return put_node(ad, i, out, at);
    }
    put_byte(out, at, b'(');
    let m = put_node(ad, i, out, at + 1);
    put_byte(out, m, b')');
    m + 1
}
