// `is` and `isnt`: the same kind and the same value.
#![tactic(auto)]

ghost use Rattle.std.specs.Prelude.{◌≡◌};
ghost use Rattle.identity.specs.Identity.{same_value, is_value, isnt_value};

use values::Value;

fn same(first: &[u8], second: &[u8], a: Value, b: Value) -> bool
    ensures { result ≡ same_value first.now second.now a b }
{
    match (a, b) {
        (Value::Undefined, Value::Undefined) | (Value::Error, Value::Error) => true,
        (Value::Boolean(x), Value::Boolean(y)) => x == y,
        (Value::Integer(x), Value::Integer(y)) => x == y,
        (Value::Real(x), Value::Real(y)) => x == y,
        (Value::String(side, offset, length), Value::String(s, o, n)) => {
            let bytes = values::part(first, second, side, offset, length);
            text::same_bytes(bytes, values::part(first, second, s, o, n))
        }
        _ => false,
    }
}

pub fn is(first: &[u8], second: &[u8], a: Value, b: Value) -> Value
    ensures { result ≡ is_value first.now second.now a b }
{
    Value::Boolean(same(first, second, a, b))
}

pub fn isnt(first: &[u8], second: &[u8], a: Value, b: Value) -> Value
    ensures { result ≡ isnt_value first.now second.now a b }
{
    Value::Boolean(!same(first, second, a, b))
}
