// The operators of an expression, each by its rule.
#![tactic(auto)]

ghost use Rattle.std.specs.Prelude.{◌≡◌};
ghost use Rattle.operators.specs.Operators.{binary_value, unary_value};

use arithmetic::Arithmetic;
use comparison::Comparison;
use syntax::{Binary, Unary};
use values::Value;

// `first` and `second` are the two ads' bytes, in which the places of Strings lie.
pub fn binary(first: &[u8], second: &[u8], op: Binary, a: Value, b: Value) -> Value
    ensures { result ≡ binary_value first.now second.now op a b }
{
    match op {
        Binary::Or => logic::or(a, b),
        Binary::And => logic::and(a, b),
        Binary::Equal => comparison::compare(first, second, Comparison::Equal, a, b),
        Binary::NotEqual => comparison::compare(first, second, Comparison::NotEqual, a, b),
        Binary::Is => identity::is(first, second, a, b),
        Binary::Isnt => identity::isnt(first, second, a, b),
        Binary::Less => comparison::compare(first, second, Comparison::Below, a, b),
        Binary::LessOrEqual => comparison::compare(first, second, Comparison::AtMost, a, b),
        Binary::Greater => comparison::compare(first, second, Comparison::Above, a, b),
        Binary::GreaterOrEqual => comparison::compare(first, second, Comparison::AtLeast, a, b),
        Binary::Add => arithmetic::compute(Arithmetic::Sum, a, b),
        Binary::Subtract => arithmetic::compute(Arithmetic::Difference, a, b),
        Binary::Multiply => arithmetic::compute(Arithmetic::Product, a, b),
        Binary::Divide => arithmetic::compute(Arithmetic::Quotient, a, b),
        Binary::Remainder => arithmetic::compute(Arithmetic::Remainder, a, b),
    }
}

pub fn unary(op: Unary, a: Value) -> Value
    ensures { result ≡ unary_value op a }
{
    match op {
        Unary::Not => logic::not(a),
        Unary::Plus => arithmetic::plus(a),
        Unary::Minus => arithmetic::minus(a),
    }
}
