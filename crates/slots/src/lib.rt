// Slots of the table of values, packed to two words each in lent memory.
#![tactic(auto)]

ghost use Rattle.std.specs.Prelude.{◌≡◌, ◌+◌, ◌*◌, ◌<◌, get_or, set};
ghost use Rattle.std.specs.Float.{binary64};
ghost use Rattle.std.specs.Float.Ieee.{to_bits, of_bits};
ghost use Rattle.slots.specs.Packed.{kind_of, place_word, slot_of, slot_at, Stored};
ghost use Rattle.slots.specs.Inner.Packing.{Packs};

use values::Value;

// 'Each slot of the table is blank or holds a value.'
#[derive(Clone, Copy)]
pub enum Slot {
    Blank,
    Held(Value),
}

fn kind_of(v: Value) -> u64
    ensures { result ≡ kind_of v }
{
    match v {
        Value::Undefined => 1,
        Value::Error => 2,
        Value::Boolean(_) => 3,
        Value::Integer(_) => 4,
        Value::Real(_) => 5,
        Value::String(_, _, _) => 6,
    }
}

// A Real's bits, with one pattern for not-a-number.
pub fn bits_of(x: f64) -> u64
    ensures { result ≡ to_bits binary64 x }
{
    if x.is_nan() {
        0x7FF8_0000_0000_0000
    } else {
        x.to_bits()
    }
}

fn place_word(side: bool, offset: u16, length: u16) -> u64
    ensures { result ≡ place_word side offset length }
{
    u64::from(side) * 4294967296 + u64::from(offset) * 65536 + u64::from(length)
}

fn load_of(v: Value) -> u64
    ensures { Packs v result }
{
    match v {
        Value::Undefined | Value::Error => 0,
        Value::Boolean(b) => u64::from(b),
        Value::Integer(x) => u64::from(x),
        Value::Real(x) => bits_of(x),
        Value::String(side, offset, length) => place_word(side, offset, length),
    }
}

fn real_of(p: u64) -> f64
    ensures { result ≡ of_bits binary64 p }
{
    if p % 0x8000_0000_0000_0000 <= 0x7FF0_0000_0000_0000 {
        f64::from_bits(p)
    } else {
        f64::NAN
    }
}

// The slot of any two words.
fn unpacked(k: u64, p: u64) -> Slot
    ensures { result ≡ slot_of k p }
{
    match k {
        1 => Slot::Held(Value::Undefined),
        2 => Slot::Held(Value::Error),
        3 => Slot::Held(Value::Boolean(p != 0)),
        4 => Slot::Held(Value::Integer((p % 4294967296) as u32)),
        5 => Slot::Held(Value::Real(real_of(p))),
        6 => Slot::Held(Value::String(
            p / 4294967296 != 0,
            (p / 65536 % 65536) as u16,
            (p % 65536) as u16,
        )),
        _ => Slot::Blank,
    }
}

// Words beyond the table's end read as 0 and are not written.
fn word(table: &[u64], k: usize) -> u64
    ensures { result ≡ get_or table.now k 0 }
{
    table.get(k).copied().unwrap_or(0)
}

fn set_word(table: &mut [u64], k: usize, w: u64)
    ensures { table.new ≡ set table.old k w }
{
    if k < table.len() {
        table[k] = w;
    }
}

pub fn load(table: &[u64], i: usize) -> Slot
    ensures { result ≡ slot_at table.now i }
{
    if i <= table.len() / 2 {
        unpacked(word(table, i * 2), word(table, i * 2 + 1))
    } else {
        Slot::Blank
    }
}

pub fn store(table: &mut [u64], i: usize, s: Slot)
    ensures { Stored table.old table.new i s }
{
    if i <= table.len() / 2 {
        let (kind, load) = match s {
            Slot::Blank => (0, 0),
            Slot::Held(v) => (kind_of(v), load_of(v)),
        };
        set_word(table, i * 2, kind);
        set_word(table, i * 2 + 1, load);
    }
}
