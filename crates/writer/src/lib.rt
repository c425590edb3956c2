// Names and literals written into lent output.
#![tactic(auto)]

ghost use Rattle.std.specs.Prelude.{◌≡◌, [], ◌∷◌, ◌++◌, ◌+◌, ◌-◌, ◌≤◌, ◌<◌, length, set, take, drop};
ghost use Rattle.syntax.specs.Tree.{real, string};
ghost use Rattle.syntax.specs.Print.{decimal, escaped, literal_text, binary_text, unary_text};
ghost use Rattle.writer.specs.Inner.Put.{Puts, Near};
ghost use Rattle.writer.specs.Inner.Operators.{operator_start, operator_end};

use syntax::{Binary, Unary};

// Writes a byte, if it fits in.
pub fn put_byte(out: &mut [u8], at: usize, b: u8)
    ensures { out.new ≡ set out.old at b }
{
    if at < out.len() {
        out[at] = b;
    }
}

// Writes some bytes, and gives the place behind them.
pub fn put(bytes: &[u8], out: &mut [u8], at: usize) -> usize
    requires { Near at bytes.now }
    ensures { Puts bytes.now out.old at out.new result }
{
    let mut i = 0;
    let mut m = at;
    while i < bytes.len() {
        put_byte(out, m, bytes[i]);
        i += 1;
        m += 1;
    }
    m
}

// Writes the bytes from start up to end.
fn put_part(bytes: &[u8], start: usize, end: usize, out: &mut [u8], at: usize) -> usize
    requires { (start ≤ end) × (end ≤ length bytes.now) × Near at (take (end - start) (drop start bytes.now)) }
    ensures { Puts (take (end - start) (drop start bytes.now)) out.old at out.new result }
{
    put(&bytes[start..end], out, at)
}

fn digit(d: u64) -> u8
    requires { d ≤ 9 }
    ensures { result ≡ 48 + d }
{
    (48 + d) as u8
}

// Writes an Integer.
pub fn put_decimal(v: u64, out: &mut [u8], at: usize) -> usize
    requires { Near at (decimal v) }
    ensures { Puts (decimal v) out.old at out.new result }
{
    if v < 10 {
        put_byte(out, at, digit(v));
        return at + 1;
    }
    let m = put_decimal(v / 10, out, at);
    put_byte(out, m, digit(v % 10));
    m + 1
}

// Writes a Real.
pub fn put_real(v: u64, places: u64, out: &mut [u8], at: usize) -> usize
    requires { Near at (literal_text (real v places)) }
    ensures { Puts (literal_text (real v places)) out.old at out.new result }
{
    if places == 0 {
        let m = put_decimal(v, out, at);
        put_byte(out, m, b'.');
        return m + 1;
    }
    let m = put_real(v / 10, places - 1, out, at);
    put_byte(out, m, digit(v % 10));
    m + 1
}

// Writes a byte of a string.
fn put_escaped(b: u8, out: &mut [u8], at: usize) -> usize
    requires { Near at (escaped b) }
    ensures { Puts (escaped b) out.old at out.new result }
{
    if b == b'"' {
        return put(b"\\\"", out, at);
    }
    if b == b'\\' {
        return put(b"\\\\", out, at);
    }
    if b == b'\n' {
        return put(b"\\n", out, at);
    }
    if b == b'\t' {
        return put(b"\\t", out, at);
    }
    put_byte(out, at, b);
    at + 1
}

// Writes a string.
pub fn put_string(s: &[u8], out: &mut [u8], at: usize) -> usize
    requires { Near at (literal_text (string s.now)) }
    ensures { Puts (literal_text (string s.now)) out.old at out.new result }
{
    put_byte(out, at, b'"');
    let mut i = 0;
    let mut m = at + 1;
    while i < s.len() {
        m = put_escaped(s[i], out, m);
        i += 1;
    }
    put_byte(out, m, b'"');
    m + 1
}

// Writes an operator of one operand.
pub fn put_unary(u: Unary, out: &mut [u8], at: usize) -> usize
    requires { Near at (unary_text u) }
    ensures { Puts (unary_text u) out.old at out.new result }
{
    match u {
        Unary::Not => put(b"!", out, at),
        Unary::Plus => put(b"+", out, at),
        Unary::Minus => put(b"-", out, at),
    }
}

// Where an operator's text begins among the texts of all, one behind another.
fn operator_start(j: Binary) -> usize
    ensures { result ≡ operator_start j }
{
    match j {
        Binary::Or => 0,
        Binary::And => 2,
        Binary::Equal => 4,
        Binary::NotEqual => 6,
        Binary::Is => 8,
        Binary::Isnt => 8,
        Binary::Less => 12,
        Binary::LessOrEqual => 12,
        Binary::Greater => 14,
        Binary::GreaterOrEqual => 14,
        Binary::Add => 16,
        Binary::Subtract => 17,
        Binary::Multiply => 18,
        Binary::Divide => 19,
        Binary::Remainder => 20,
    }
}

// Where it ends.
fn operator_end(j: Binary) -> usize
    ensures { result ≡ operator_end j }
{
    match j {
        Binary::Or => 2,
        Binary::And => 4,
        Binary::Equal => 6,
        Binary::NotEqual => 8,
        Binary::Is => 10,
        Binary::Isnt => 12,
        Binary::Less => 13,
        Binary::LessOrEqual => 14,
        Binary::Greater => 15,
        Binary::GreaterOrEqual => 16,
        Binary::Add => 17,
        Binary::Subtract => 18,
        Binary::Multiply => 19,
        Binary::Divide => 20,
        Binary::Remainder => 21,
    }
}

// Writes an operator of two operands.
fn put_operator(j: Binary, out: &mut [u8], at: usize) -> usize
    requires { Near at (binary_text j) }
    ensures { Puts (binary_text j) out.old at out.new result }
{
    let texts = b"||&&==!=isnt<=>=+-*/%";
    put_part(texts, operator_start(j), operator_end(j), out, at)
}

// Writes an operator of two operands between blanks.
pub fn put_binary(j: Binary, out: &mut [u8], at: usize) -> usize
    requires { at + length (binary_text j) + 2 ≤ 1000000 }
    ensures { Puts (32 ∷ (binary_text j ++ 32 ∷ [])) out.old at out.new result }
{
    put_byte(out, at, b' ');
    let m = put_operator(j, out, at + 1);
    put_byte(out, m, b' ');
    m + 1
}
