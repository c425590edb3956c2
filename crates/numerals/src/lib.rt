// Numbers as tokens.
#![tactic(auto)]

ghost use Rattle.std.specs.Prelude.{◌≡◌, ◌+◌, ◌-◌, ◌*◌, ◌≤◌, min, length, drop};
ghost use Rattle.syntax.specs.Token.{number_front};
ghost use Rattle.tokens.specs.Inner.Meaning.{AtByte, class_of, Placed};
ghost use Rattle.tokens.specs.declared.Class.TheVariants.{Digits};
ghost use Rattle.numerals.specs.Inner.Meaning.{Fraction, largest_read, value_to};

use syntax::{Reason, Refusal};
use tokens::{Class, Constant, Span, Token};

const LARGEST_INTEGER: u64 = 2147483647;

const REAL_DIGITS: usize = 15;

// The largest number that is told apart: it has over 15 digits, and is over the range of an Integer.
const LARGEST_READ: u64 = 1000000000000000;

// One digit more, but no more than the largest, which keeps the number small.
fn push(v: u64, b: u8) -> u64
    requires { v ≤ largest_read }
    ensures { result ≡ min (v * 10 + (b - 48)) largest_read }
{
    (v * 10 + u64::from(b.saturating_sub(b'0'))).min(LARGEST_READ)
}

// The digits, read after `v`.
fn value(digits: &[u8], v: u64) -> u64
    requires { v ≤ largest_read }
    ensures { result ≡ value_to v digits.now }
{
    let mut w = v;
    for b in digits {
        w = push(w, *b);
    }
    w
}

// Where the digits after a point at `at` end; `at` itself where there are none.
fn fraction(text: &[u8], at: usize) -> usize
    requires { at ≤ length text.now }
    ensures { Fraction text.now at result }
{
    if at < text.len() && text[at] == b'.' {
        let end = tokens::run(text, at + 1, Class::Digits);
        if at + 1 < end {
            return end;
        }
    }
    at
}

// An Integer or Real whose first digit is at `start`.
pub fn number(text: &[u8], start: usize) -> Result<Token, Refusal>
    requires { AtByte (class_of Digits) text.now start }
    ensures { Placed text.now start (number_front (drop start text.now)) result }
{
    let too_large = Refusal {
        reason: Reason::NumberTooLarge,
        place: start,
    };
    let point = tokens::run(text, start, Class::Digits);
    let whole = value(&text[start..point], 0);
    let end = fraction(text, point);
    if end <= point {
        if LARGEST_INTEGER < whole {
            return Err(too_large);
        }
        return Ok(Token::Constant(Constant::Integer(whole), Span { start, end: point }));
    }
    let places = end - point - 1;
    if REAL_DIGITS < point - start + places {
        return Err(too_large);
    }
    let digits = value(&text[point + 1..end], whole);
    Ok(Token::Constant(Constant::Real(digits, places as u64), Span { start, end }))
}
