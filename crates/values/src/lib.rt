// Values of six kinds, and a String's bytes.
#![tactic(auto)]

ghost use Rattle.std.specs.Prelude.{◌≡◌, cond};
ghost use Rattle.parts.specs.Parts.{PartFrom};
ghost use Rattle.values.specs.Values.{bytes_at};

// A String's place: whether in the second ad's memory, its offset there, its length.
#[derive(Clone, Copy)]
pub enum Value {
    Undefined,
    Error,
    Boolean(bool),
    Integer(u32),
    Real(f64),
    String(bool, u16, u16),
}

// A String's bytes, as a part of its ad's memory.
pub fn part<'a>(first: &'a [u8], second: &'a [u8], side: bool, offset: u16, length: u16) -> &'a [u8]
    ensures result_value { result.now ≡ bytes_at first.now second.now side offset length }
    ensures place { PartFrom (cond side second.entry first.entry) offset result }
{
    let bytes = if side { second } else { first };
    parts::cut(bytes, usize::from(offset), usize::from(length))
}
