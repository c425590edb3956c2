// How values are written.
#![tactic(auto)]

ghost use Rattle.std.specs.Prelude.{◌≤◌};

use cli_output::Output;
use cli_stored::TwoAds;
use slots::Slot;
use values::Value;

fn integer(out: &mut Output, x: u32) {
    if x < 0x8000_0000 {
        out.number(x as u64);
        return;
    }
    out.byte(b'-');
    out.number(0x1_0000_0000 - x as u64);
}

fn boolean(out: &mut Output, b: bool) {
    out.say(if b { b"true" } else { b"false" });
}

fn escape(out: &mut Output, b: u8) {
    out.say(&[b'\\', b]);
}

fn escaped(out: &mut Output, b: u8) {
    match b {
        b'"' => escape(out, b'"'),
        b'\\' => escape(out, b'\\'),
        b'\n' => escape(out, b'n'),
        b'\t' => escape(out, b't'),
        _ => out.byte(b),
    }
}

fn string(out: &mut Output, bytes: &[u8]) {
    out.byte(b'"');
    for &b in bytes {
        escaped(out, b);
    }
    out.byte(b'"');
}

// Some digits, one at least.
fn digits(out: &mut Output, decimal: &[u8], from: usize, end: usize) {
    if from < end {
        out.say(parts::cut(decimal, from, end - from));
        return;
    }
    out.byte(b'0');
}

fn exponent(out: &mut Output, first: usize) {
    out.byte(b'e');
    if first < decimals::POINT {
        out.number((decimals::POINT - 1 - first) as u64);
        return;
    }
    out.byte(b'-');
    out.number((first - decimals::POINT) as u64 + 1);
}

// One digit before the point, and an exponent.
fn scientific(out: &mut Output, d: &[u8; 1408], first: usize, last: usize)
    requires { first ≤ 1408 }
{
    digits(out, d, first, first + 1);
    out.byte(b'.');
    digits(out, d, first + 1, last);
    exponent(out, first);
}

// Plain where the first digit stands from 16 places before the point to 5 behind it, else with an exponent.
fn finite(out: &mut Output, bits: u64) {
    let mut d = [0u8; 1408];
    let s = decimals::put_decimal(bits, &mut d);
    if s.first < decimals::POINT - 16 {
        scientific(out, &d, s.first, s.last);
        return;
    }
    if decimals::POINT + 4 < s.first {
        scientific(out, &d, s.first, s.last);
        return;
    }
    digits(out, &d, s.first, decimals::POINT);
    out.byte(b'.');
    digits(out, &d, decimals::POINT, s.last);
}

fn real(out: &mut Output, bits: u64) {
    let size = bits % 0x8000_0000_0000_0000;
    if 0x7FF0_0000_0000_0000 < size {
        out.say(b"not-a-number");
        return;
    }
    if bits != size {
        out.byte(b'-');
    }
    if size == 0x7FF0_0000_0000_0000 {
        out.say(b"infinity");
        return;
    }
    if size == 0 {
        out.say(b"0.0");
        return;
    }
    finite(out, size);
}

fn value(out: &mut Output, v: Value, ads: TwoAds<'_>) {
    match v {
        Value::Undefined => out.say(b"undefined"),
        Value::Error => out.say(b"error"),
        Value::Boolean(x) => boolean(out, x),
        Value::Integer(x) => integer(out, x),
        Value::Real(x) => real(out, slots::bits_of(x)),
        Value::String(second, offset, length) => {
            string(out, ads.ad(second).part(offset as usize, length as usize))
        }
    }
}

pub fn slot(out: &mut Output, s: Slot, ads: TwoAds<'_>) {
    match s {
        Slot::Blank => out.say(b"blank"),
        Slot::Held(v) => value(out, v, ads),
    }
}
