// The logical operators, by document 01's tables.
#![tactic(auto)]

ghost use Rattle.std.specs.Prelude.{◌≡◌};
ghost use Rattle.logic.specs.Logic.{truth_of, row, and_value, or_value, not_value, conditional_value};

use values::Value;

// What the tables of the logical operators see of a value: false, Undefined, true, or anything other.
#[derive(Clone, Copy)]
pub enum Truth {
    F,
    U,
    T,
    O,
}

pub fn truth_of(v: Value) -> Truth
    ensures { result ≡ truth_of v }
{
    match v {
        Value::Undefined => Truth::U,
        Value::Boolean(false) => Truth::F,
        Value::Boolean(true) => Truth::T,
        _ => Truth::O,
    }
}

// One row of a table: what stands under F, U, T and O.
fn in_row(f: Value, u: Value, t: Value, o: Value, column: Truth) -> Value
    ensures { result ≡ row f u t o column }
{
    match column {
        Truth::F => f,
        Truth::U => u,
        Truth::T => t,
        Truth::O => o,
    }
}

pub fn and(a: Value, b: Value) -> Value
    ensures { result ≡ and_value a b }
{
    let no = Value::Boolean(false);
    let yes = Value::Boolean(true);
    let u = Value::Undefined;
    let e = Value::Error;
    let q = truth_of(b);
    match truth_of(a) {
        Truth::F => in_row(no, no, no, no, q),
        Truth::U => in_row(no, u, u, e, q),
        Truth::T => in_row(no, u, yes, e, q),
        Truth::O => in_row(e, e, e, e, q),
    }
}

pub fn or(a: Value, b: Value) -> Value
    ensures { result ≡ or_value a b }
{
    let no = Value::Boolean(false);
    let yes = Value::Boolean(true);
    let u = Value::Undefined;
    let e = Value::Error;
    let q = truth_of(b);
    match truth_of(a) {
        Truth::F => in_row(no, u, yes, e, q),
        Truth::U => in_row(u, u, yes, e, q),
        Truth::T => in_row(yes, yes, yes, yes, q),
        Truth::O => in_row(e, e, e, e, q),
    }
}

pub fn not(a: Value) -> Value
    ensures { result ≡ not_value a }
{
    match truth_of(a) {
        Truth::F => Value::Boolean(true),
        Truth::U => Value::Undefined,
        Truth::T => Value::Boolean(false),
        Truth::O => Value::Error,
    }
}

pub fn conditional(p: Value, a: Value, b: Value) -> Value
    ensures { result ≡ conditional_value p a b }
{
    match truth_of(p) {
        Truth::F => b,
        Truth::U => Value::Undefined,
        Truth::T => a,
        Truth::O => Value::Error,
    }
}
