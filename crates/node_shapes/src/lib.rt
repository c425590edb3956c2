// What a stored node is by its kind: a leaf, or an operator whose operands are the nodes before it.
#![tactic(auto)]

ghost use Rattle.std.specs.Prelude.{◌≡◌, ◌+◌, ◌<◌, eqb};
ghost use Rattle.syntax.specs.Bounds.{max_nodes};
ghost use Rattle.node_shapes.specs.Inner.Shapes.{one_fits, two_fits, three_fits, shape_of, shape_at};

use ad::StoredAd;

// What the nodes of a run are: a leaf, or an operator with the last nodes of its operands.
#[derive(Clone, Copy, PartialEq, Eq)]
pub enum Shape {
    Leaf,
    One(usize),
    Two(usize, usize),
    Three(usize, usize, usize),
}

// Whether node i comes right behind node x.
fn follows(x: usize, i: usize) -> bool
    ensures { result ≡ eqb (x + 1) i }
{
    x < i && x + 1 == i
}

fn one_fits(s: usize, i: usize, x: usize, y: usize, z: usize) -> bool
    ensures { result ≡ one_fits s i x y z }
{
    s <= x && follows(x, i) && y == 0 && z == 0
}

fn two_fits(s: usize, i: usize, x: usize, y: usize, z: usize) -> bool
    ensures { result ≡ two_fits s i x y z }
{
    s <= x && x < y && follows(y, i) && z == 0
}

fn three_fits(s: usize, i: usize, x: usize, y: usize, z: usize) -> bool
    ensures { result ≡ three_fits s i x y z }
{
    s <= x && x < y && y < z && follows(z, i)
}

// What a node with the number k for its kind and the words x, y and z is as the last of the nodes s to i. The numbers are those of
// docs/LAYOUT.md, as any may stand there.
#[tactic(auto, unfolding(crate::specs::Inner::Shapes::shape_of))]
fn shape_of(s: usize, i: usize, k: u64, x: usize, y: usize, z: usize) -> Option<Shape>
    ensures { result ≡ shape_of s i k x y z }
{
    match k {
        0..=8 if s == i => Some(Shape::Leaf),
        9..=11 if one_fits(s, i, x, y, z) => Some(Shape::One(x)),
        12 if three_fits(s, i, x, y, z) => Some(Shape::Three(x, y, z)),
        13..=27 if two_fits(s, i, x, y, z) => Some(Shape::Two(x, y)),
        _ => None,
    }
}

// What node i is as the last of the nodes from s on; none where they are no run.
pub fn shape_at(ad: StoredAd<'_>, s: usize, i: usize) -> Option<Shape>
    requires { i < max_nodes }
    ensures { result ≡ shape_at ad.entry.words.now s i }
{
    let x = ad.operand(i, 0);
    let y = ad.operand(i, 1);
    let z = ad.operand(i, 2);
    shape_of(s, i, ad.code(i), x, y, z)
}
