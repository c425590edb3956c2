// A node as it is evaluated: what it is, and what its rule makes of the values of its needs.
#![tactic(auto)]

ghost use Rattle.std.specs.Prelude.{◌≡◌};
ghost use Rattle.ad.specs.Layout.{code_of};
ghost use Rattle.nodes.specs.Nodes.{constant_of, node_of, applied};

use ad::Kind;
use syntax::{Binary, Unary};
use values::Value;

// 'A node is a literal, a reference or an operator.' A literal is kept as its value.
#[derive(Clone, Copy)]
pub enum Node {
    Constant(Value),
    Reference,
    OfOne(Unary),
    OfTwo(Binary),
    Conditional,
}

fn constant_of(second: bool, kind: Kind, a: u64, b: u64) -> Value
    ensures { result ≡ constant_of second (code_of kind) a b }
{
    match kind {
        Kind::Error => Value::Error,
        Kind::Boolean => Value::Boolean(a != 0),
        Kind::Integer => Value::Integer((a % 4294967296) as u32),
        Kind::Real => Value::Real(reals::literal(a, b)),
        Kind::String => Value::String(second, (a % 65536) as u16, (b % 65536) as u16),
        _ => Value::Undefined,
    }
}

// The node of a kind, and its first two operands or data; `second` where it is the second ad's.
#[tactic(auto, unfolding(ad::specs::Stored::arity, ad::specs::Stored::unary_of, ad::specs::Stored::binary_of))]
fn node_of_kind(second: bool, kind: Kind, a: u64, b: u64) -> Node
    ensures { result ≡ node_of second (code_of kind) a b }
{
    match kind {
        Kind::Own | Kind::Other => Node::Reference,
        Kind::Unary(op) => Node::OfOne(op),
        Kind::Binary(op) => Node::OfTwo(op),
        Kind::Conditional => Node::Conditional,
        _ => Node::Constant(constant_of(second, kind, a, b)),
    }
}

// The node of any numbers: its kind, and its first two operands or data; `second` where it is the second ad's.
pub fn node_of(second: bool, kind: u64, a: u64, b: u64) -> Node
    ensures { result ≡ node_of second kind a b }
{
    match Kind::try_from(kind) {
        Ok(kind) => node_of_kind(second, kind, a, b),
        Err(_) => Node::Constant(Value::Undefined),
    }
}

// What a node's rule makes of the values of its needs, as many of the three as it has. `first` and `second` are the two ads' bytes.
pub fn apply(first: &[u8], second: &[u8], node: Node, a: Value, b: Value, c: Value) -> Value
    ensures { result ≡ applied first.now second.now node a b c }
{
    match node {
        Node::Constant(v) => v,
        Node::Reference => a,
        Node::OfOne(op) => operators::unary(op, a),
        Node::OfTwo(op) => operators::binary(first, second, op, a, b),
        Node::Conditional => logic::conditional(a, b, c),
    }
}
