// What the C functions of values do: each calls the function of its name and leaves its answer in numbers (docs/LAYOUT.md).
#![tactic(auto)]

ghost use Rattle.std.specs.Prelude.{◌≡◌, cond, not, eqb};
ghost use Rattle.results.specs.Results.{shown_at};
ghost use Rattle.c_results.specs.Showing.{held_numbers, slot_numbers, StringPlaced};

use slots::Slot;
use values::Value;

// 1 for true, as C has it.
pub fn flag(b: bool) -> u64
    ensures { result ≡ cond b 1 0 }
{
    u64::from(b)
}

// What a value is, as four numbers: its kind, and what it carries.
fn held_numbers(v: Value) -> [u64; 4]
    ensures { result ≡ held_numbers v }
{
    match v {
        Value::Undefined => [1, 0, 0, 0],
        Value::Error => [2, 0, 0, 0],
        Value::Boolean(b) => [3, flag(b), 0, 0],
        Value::Integer(x) => [4, u64::from(x), 0, 0],
        Value::Real(x) => [5, slots::bits_of(x), 0, 0],
        Value::String(side, offset, length) => [
            6,
            flag(side),
            u64::from(offset),
            u64::from(length),
        ],
    }
}

// A slot as four numbers, zeros where it is blank.
fn slot_numbers(s: Slot) -> [u64; 4]
    ensures { result ≡ slot_numbers s }
{
    match s {
        Slot::Blank => [0, 0, 0, 0],
        Slot::Held(v) => held_numbers(v),
    }
}

// What a match left in the slot of a node of the first ad, or of the second where `second` is not 0.
pub fn value(table: &[u64], second: u64, node: usize, answer: &mut [u64; 4])
    ensures { answer.new ≡ slot_numbers (shown_at table.now (not (eqb second 0)) node) }
{
    *answer = slot_numbers(results::value_at(table, second != 0, node));
}

// Where the bytes of a String value begin in its ad's bytes, and how many there are.
pub fn string<'a>(
    first: &'a [u8],
    second: &'a [u8],
    side: u64,
    offset: u16,
    length: u16,
    answer: &mut [u64; 2],
)
    ensures { StringPlaced first.now second.now (not (eqb side 0)) offset length answer.new }
{
    let bytes = if side != 0 { second } else { first };
    let start = usize::from(offset).min(bytes.len());
    let part = results::string_bytes(first, second, side != 0, offset, length);
    *answer = [start as u64, part.len() as u64];
}
