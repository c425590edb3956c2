// Arithmetic, and unary plus and minus.
#![tactic(auto)]

ghost use Rattle.std.specs.Prelude.{◌≡◌};
ghost use Rattle.arithmetic.specs.Arithmetic.{integers_result, reals_result, arithmetic_value, minus_value, plus_value};

use operands::Operands;
use values::Value;

#[derive(Clone, Copy)]
pub enum Arithmetic {
    Sum,
    Difference,
    Product,
    Quotient,
    Remainder,
}

fn of_integers(op: Arithmetic, x: u32, y: u32) -> Value
    ensures { result ≡ integers_result op x y }
{
    match op {
        Arithmetic::Sum => Value::Integer(integers::sum(x, y)),
        Arithmetic::Difference => Value::Integer(integers::difference(x, y)),
        Arithmetic::Product => Value::Integer(integers::product(x, y)),
        Arithmetic::Quotient | Arithmetic::Remainder if y == 0 => Value::Error,
        Arithmetic::Quotient => Value::Integer(integers::quotient(x, y)),
        Arithmetic::Remainder => Value::Integer(integers::remainder(x, y)),
    }
}

fn of_reals(op: Arithmetic, x: f64, y: f64) -> f64
    ensures { result ≡ reals_result op x y }
{
    match op {
        Arithmetic::Sum => x + y,
        Arithmetic::Difference => x - y,
        Arithmetic::Product => x * y,
        Arithmetic::Quotient => x / y,
        Arithmetic::Remainder => remainders::remainder(x, y),
    }
}

pub fn compute(op: Arithmetic, a: Value, b: Value) -> Value
    ensures { result ≡ arithmetic_value op a b }
{
    match operands::pair_of(operands::number_only(a), operands::number_only(b)) {
        Operands::Missing => Value::Undefined,
        Operands::Integers(x, y) => of_integers(op, x, y),
        Operands::Reals(x, y) => Value::Real(of_reals(op, x, y)),
        Operands::Refused | Operands::Strings(..) => Value::Error,
    }
}

pub fn minus(v: Value) -> Value
    ensures { result ≡ minus_value v }
{
    match v {
        Value::Undefined => v,
        Value::Integer(x) => Value::Integer(integers::negation(x)),
        Value::Real(x) => Value::Real(-x),
        _ => Value::Error,
    }
}

pub fn plus(v: Value) -> Value
    ensures { result ≡ plus_value v }
{
    match v {
        Value::Undefined | Value::Integer(_) | Value::Real(_) => v,
        _ => Value::Error,
    }
}
