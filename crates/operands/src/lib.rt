// What two operands are to a strict operator.
#![tactic(auto)]

ghost use Rattle.std.specs.Prelude.{◌≡◌};
ghost use Rattle.operands.specs.Inner.Operands.{operands_of, number_only};

use values::Value;

// What two operands are to a strict operator: not admitted, one of them Undefined, or the two values.
#[derive(Clone, Copy)]
pub enum Operands {
    Refused,
    Missing,
    Integers(u32, u32),
    Reals(f64, f64),
    Strings(bool, u16, u16, bool, u16, u16),
}

pub fn pair_of(a: Value, b: Value) -> Operands
    ensures { result ≡ operands_of a b }
{
    match (a, b) {
        (Value::Error | Value::Boolean(_), _) | (_, Value::Error | Value::Boolean(_)) =>
            Operands::Refused,
        (Value::Undefined, _) | (_, Value::Undefined) => Operands::Missing,
        (Value::Integer(x), Value::Integer(y)) => Operands::Integers(x, y),
        (Value::Integer(x), Value::Real(y)) => Operands::Reals(reals::of_integer(x), y),
        (Value::Real(x), Value::Integer(y)) => Operands::Reals(x, reals::of_integer(y)),
        (Value::Real(x), Value::Real(y)) => Operands::Reals(x, y),
        (Value::String(side, offset, length), Value::String(s, o, n)) => Operands::Strings(
            side, offset, length, s, o, n,
        ),
        _ => Operands::Refused,
    }
}

pub fn number_only(v: Value) -> Value
    ensures { result ≡ number_only v }
{
    match v {
        Value::String(..) => Value::Error,
        _ => v,
    }
}
