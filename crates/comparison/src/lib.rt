// The six comparisons.
#![tactic(auto)]

ghost use Rattle.std.specs.Prelude.{◌≡◌};
ghost use Rattle.comparison.specs.Comparison.{integers_compare, reals_compare, order_holds, comparison_value};

use operands::Operands;
use std::cmp::Ordering;
use values::Value;

#[derive(Clone, Copy)]
pub enum Comparison {
    Equal,
    NotEqual,
    Below,
    AtMost,
    Above,
    AtLeast,
}

fn compare_integers(op: Comparison, x: u32, y: u32) -> bool
    ensures { result ≡ integers_compare op x y }
{
    match op {
        Comparison::Equal => x == y,
        Comparison::NotEqual => x != y,
        Comparison::Below => integers::less(x, y),
        Comparison::AtMost => !integers::less(y, x),
        Comparison::Above => integers::less(y, x),
        Comparison::AtLeast => !integers::less(x, y),
    }
}

fn compare_reals(op: Comparison, x: f64, y: f64) -> bool
    ensures { result ≡ reals_compare op x y }
{
    match op {
        Comparison::Equal => x == y,
        Comparison::NotEqual => x != y,
        Comparison::Below => x < y,
        Comparison::AtMost => x <= y,
        Comparison::Above => x > y,
        Comparison::AtLeast => x >= y,
    }
}

fn order_holds(op: Comparison, order: Ordering) -> bool
    ensures { result ≡ order_holds op order }
{
    match op {
        Comparison::Equal => order.is_eq(),
        Comparison::NotEqual => order.is_ne(),
        Comparison::Below => order.is_lt(),
        Comparison::AtMost => order.is_le(),
        Comparison::Above => order.is_gt(),
        Comparison::AtLeast => order.is_ge(),
    }
}

pub fn compare(first: &[u8], second: &[u8], op: Comparison, a: Value, b: Value) -> Value
    ensures { result ≡ comparison_value first.now second.now op a b }
{
    match operands::pair_of(a, b) {
        Operands::Refused => Value::Error,
        Operands::Missing => Value::Undefined,
        Operands::Integers(x, y) => Value::Boolean(compare_integers(op, x, y)),
        Operands::Reals(x, y) => Value::Boolean(compare_reals(op, x, y)),
        Operands::Strings(side, offset, length, s, o, n) => {
            let bytes = values::part(first, second, side, offset, length);
            let others = values::part(first, second, s, o, n);
            Value::Boolean(order_holds(op, text::string_order(bytes, others)))
        }
    }
}
