// The check of one stored expression: whether some nodes are its tree, how it binds, its levels and how long it prints.
#![tactic(auto)]

ghost use Rattle.std.specs.Prelude.{◌≡◌, cond, ◌&&◌, ◌+◌, ◌-◌, ◌≤◌, ◌<◌, length, ltb, Some};
ghost use Rattle.syntax.specs.Bounds.{max_nodes};
ghost use Rattle.ad.specs.Layout.{ad_bytes_room};
ghost use Rattle.syntax.specs.Tree.{real, string};
ghost use Rattle.syntax.specs.Print.{decimal, literal_text, binary_text};
ghost use Rattle.syntax.specs.Inner.Lexeme.{is_name, is_string, is_real};
ghost use Rattle.ad.specs.Stored.{bytes_at};
ghost use Rattle.tree_check.specs.Inner.Decode.{keyword_fits, boolean_fits, integer_fits, stands_at, leaf_at, Same, WalkOk, tree, walk_if, plain_walk, unary_walk, binary_walk, conditional_walk, Room};

use ad::{Kind, StoredAd};
use node_shapes::Shape;
use syntax::Binary;

// A tree that stands in a run of nodes.
#[derive(Clone, Copy, PartialEq, Eq)]
pub struct Tree {
    // The place behind its bytes.
    pub end: usize,
    // How tight it binds.
    pub binds: usize,
    // Its highest level.
    pub level: usize,
    // How long it prints.
    pub print: usize,
}

// A literal or reference, whose bytes end at a place and which prints so many.
fn leaf(end: usize, print: usize) -> Tree
    ensures { Some result ≡ tree end 8 0 print }
{
    Tree {
        end: end,
        binds: 8,
        level: 0,
        print: print,
    }
}

// `undefined` or `error`, which print n bytes.
fn keyword_walk(x: usize, y: usize, o: usize, n: usize) -> Option<Tree>
    ensures { result ≡ walk_if (keyword_fits x y) (plain_walk o n) }
{
    if x == 0 && y == 0 {
        Some(leaf(o, n))
    } else {
        None
    }
}

fn boolean_walk(x: usize, y: usize, o: usize) -> Option<Tree>
    ensures { result ≡ walk_if (boolean_fits x y) (plain_walk o (5 - x)) }
{
    if x <= 1 && y == 0 {
        Some(leaf(o, 5 - x))
    } else {
        None
    }
}

fn integer_walk(x: usize, y: usize, o: usize) -> Option<Tree>
    ensures { result ≡ walk_if (integer_fits x y) (plain_walk o (length (decimal x))) }
{
    if x <= 2147483647 && y == 0 {
        Some(leaf(o, lexemes::decimal_length(x as u64)))
    } else {
        None
    }
}

fn real_walk(x: usize, y: usize, o: usize) -> Option<Tree>
    ensures { result ≡ walk_if (is_real x y) (plain_walk o (length (literal_text (real x y)))) }
{
    if lexemes::is_real(x as u64, y as u64) {
        Some(leaf(o, lexemes::real_length(x as u64, y as u64)))
    } else {
        None
    }
}

// Whether y bytes stand from o on, which x names.
pub fn stands(bytes: &[u8], o: usize, x: usize, y: usize) -> bool
    ensures { result ≡ stands_at bytes.now o x y }
{
    x == o && parts::cut(bytes, o, y).len() == y
}

fn string_walk(bytes: &[u8], o: usize, x: usize, y: usize) -> Option<Tree>
    requires { (o ≤ ad_bytes_room) × (length bytes.now ≡ ad_bytes_room) }
    ensures { result ≡ walk_if (stands_at bytes.now o x y && is_string (bytes_at bytes.now o y)) (tree (o + y) 8 0 (length (literal_text (string (bytes_at bytes.now o y))))) }
{
    let part = parts::cut(bytes, o, y);
    if stands(bytes, o, x, y) && lexemes::is_string(part) {
        Some(leaf(o + y, lexemes::string_length(part)))
    } else {
        None
    }
}

// A reference, whose name has n bytes before it.
fn name_walk(bytes: &[u8], o: usize, x: usize, y: usize, n: usize) -> Option<Tree>
    requires { (o ≤ ad_bytes_room) × (length bytes.now ≡ ad_bytes_room) × (n ≤ 6) }
    ensures { result ≡ walk_if (stands_at bytes.now o x y && is_name (bytes_at bytes.now o y)) (tree (o + y) 8 0 (n + y)) }
{
    let part = parts::cut(bytes, o, y);
    if stands(bytes, o, x, y) && lexemes::is_name(part) {
        Some(leaf(o + y, n + y))
    } else {
        None
    }
}

// The literal or reference at node i, whose bytes, if it has some, begin at o.
fn leaf_walk(ad: StoredAd<'_>, i: usize, o: usize) -> Option<Tree>
    requires { (i < max_nodes) × (o ≤ ad_bytes_room) × (length ad.bytes.now ≡ ad_bytes_room) }
    ensures { Same o (leaf_at ad.entry.words.now ad.entry.bytes.now i o) result }
{
    let x = ad.operand(i, 0);
    let y = ad.operand(i, 1);
    if ad.operand(i, 2) != 0 {
        return None;
    }
    match ad.kind(i)? {
        Kind::Undefined => keyword_walk(x, y, o, 9),
        Kind::Error => keyword_walk(x, y, o, 5),
        Kind::Boolean => boolean_walk(x, y, o),
        Kind::Integer => integer_walk(x, y, o),
        Kind::Real => real_walk(x, y, o),
        Kind::String => string_walk(ad.bytes, o, x, y),
        Kind::Own => name_walk(ad.bytes, o, x, y, 0),
        Kind::Other => name_walk(ad.bytes, o, x, y, 6),
        _ => None,
    }
}

// n, and more where an expression that binds at b needs parentheses to stand where k is asked.
fn around(k: usize, b: usize, n: usize, more: usize) -> usize
    requires { n + more < 1000000 }
    ensures { (result ≡ cond (ltb b k) (n + more) n) × (result ≤ n + more) }
{
    if b < k { n + more } else { n }
}

fn unary_walk(a: Tree) -> Tree
    requires { (a.level < 100000) × (a.print < 100000) }
    ensures { Some result ≡ unary_walk a.end a.binds a.level a.print }
{
    Tree {
        end: a.end,
        binds: 7,
        level: around(7, a.binds, a.level, 1) + 1,
        print: around(7, a.binds, a.print, 2) + 1,
    }
}

// How long an operator of two operands prints.
#[tactic(auto, unfolding(syntax::specs::Print::binary_text, text::specs::Bytes::bytes))]
fn operator_length(j: Binary) -> usize
    ensures { (result ≡ length (binary_text j)) × (result ≤ 4) }
{
    match j {
        Binary::Isnt => 4,
        Binary::Less
        | Binary::Greater
        | Binary::Add
        | Binary::Subtract
        | Binary::Multiply
        | Binary::Divide
        | Binary::Remainder => 1,
        _ => 2,
    }
}

#[inline(always)]
fn binary_walk(j: Binary, a: Tree, b: Tree) -> Tree
    requires { (a.level < 100000) × (a.print < 100000) × (b.level < 100000) × (b.print < 100000) }
    ensures { Some result ≡ binary_walk j a.binds a.level a.print b.end b.binds b.level b.print }
{
    let k = j.binds();
    let first = around(k, a.binds, a.level, 1);
    let second = around(k + 1, b.binds, b.level, 1);
    let len = operator_length(j) + around(k + 1, b.binds, b.print, 2) + 2;
    Tree {
        end: b.end,
        binds: k,
        level: first.max(second),
        print: around(k, a.binds, a.print, 2) + len,
    }
}

fn conditional_walk(a: Tree, b: Tree, c: Tree) -> Tree
    requires { (a.level < 100000) × (a.print < 100000) × (b.level < 100000) × (b.print < 100000) × (c.level < 100000) × (c.print < 100000) }
    ensures { Some result ≡ conditional_walk a.binds a.level a.print b.level b.print c.end c.level c.print }
{
    let asked = around(1, a.binds, a.level, 1);
    let arms = b.level.max(c.level) + 1;
    Tree {
        end: c.end,
        binds: 0,
        level: asked.max(arms),
        print: around(1, a.binds, a.print, 2) + (b.print + c.print + 6),
    }
}

// The tree of the nodes s to i, whose bytes begin at o; none where there is no such tree.
pub fn visit(ad: StoredAd<'_>, s: usize, i: usize, o: usize) -> Option<Tree>
    requires { Room ad.words.now ad.bytes.now s i o }
    ensures { WalkOk ad.entry.words.now ad.entry.bytes.now s i o result }
{
    visit_nodes(&ad, s, i, o)
}

// The same, of an ad that is lent: it is not copied for each node.
fn visit_nodes(ad: &StoredAd<'_>, s: usize, i: usize, o: usize) -> Option<Tree>
    requires { Room ad.now.words.now ad.now.bytes.now s i o }
    ensures { WalkOk ad.now.words.now ad.now.bytes.now s i o result }
{
    match node_shapes::shape_at(*ad, s, i)? {
        Shape::Leaf => leaf_walk(*ad, i, o),
        Shape::One(x) => {
            let a = visit_nodes(ad, s, x, o)?;
            Some(unary_walk(a))
        }
        Shape::Two(x, y) => {
            let a = visit_nodes(ad, s, x, o)?;
            let b = visit_nodes(ad, x + 1, y, a.end)?;
            Some(binary_walk(ad.binary(i), a, b))
        }
        Shape::Three(x, y, z) => {
            let a = visit_nodes(ad, s, x, o)?;
            let b = visit_nodes(ad, x + 1, y, a.end)?;
            let c = visit_nodes(ad, y + 1, z, b.end)?;
            Some(conditional_walk(a, b, c))
        }
    }
}
