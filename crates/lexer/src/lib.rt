// The token at a place of a text.
#![tactic(auto)]

ghost use Rattle.std.specs.Prelude.{◌+◌, ◌≤◌, ◌<◌, length, drop};
ghost use Rattle.syntax.specs.Token.{string_of, body_of, symbol_in, spellings};
ghost use Rattle.tokens.specs.Inner.Meaning.{Placed};
ghost use Rattle.lexer.specs.Inner.Meaning.{Skipped, Escapes, AtBackslash, AtToken, StepMeans, EndMeans, Scanned};

use signs::Sign;
use syntax::{Reason, Refusal};
use tokens::{Span, Token};

// What stands at a place inside a string: its end, or a byte and the place behind it.
#[derive(Clone, Copy, PartialEq, Eq)]
pub enum StringStep {
    Close,
    Byte(u8, usize),
}

// A string behind its opening quote: how many bytes it has, and the place behind its closing quote.
#[derive(Clone, Copy)]
pub struct StringEnd {
    pub length: usize,
    pub end: usize,
}

// The first byte at or after `at` that is no blank.
fn skip(text: &[u8], at: usize) -> usize
    requires { at ≤ length text.now }
    ensures { Skipped text.now at result }
{
    for i in at..text.len() {
        if !text::is_blank(text[i]) {
            return i;
        }
    }
    text.len()
}

// What the byte after a backslash stands for.
#[tactic(auto, unfolding(syntax::specs::Token::escape_of))]
fn escape(b: u8) -> Option<u8>
    ensures { Escapes b result }
{
    match b {
        b'"' => Some(b'"'),
        b'\\' => Some(b'\\'),
        b'n' => Some(b'\n'),
        b't' => Some(b'\t'),
        _ => None,
    }
}

// What stands at a backslash at `i` inside a string; nothing where no string can hold it.
fn escaped_step(text: &[u8], i: usize) -> Option<StringStep>
    requires { AtBackslash text.now i }
    ensures { StepMeans text.now i result }
{
    let b = escape(*text.get(i + 1)?)?;
    Some(StringStep::Byte(b, i + 2))
}

// What stands at `i` inside a string; nothing where no string can hold it.
pub fn string_step(text: &[u8], i: usize) -> Option<StringStep>
    requires { i ≤ length text.now }
    ensures { StepMeans text.now i result }
{
    let b = *text.get(i)?;
    match b {
        b'"' => Some(StringStep::Close),
        b'\\' => escaped_step(text, i),
        b' '..=b'~' => Some(StringStep::Byte(b, i + 1)),
        _ => None,
    }
}

// The string behind an opening quote, from `at` on.
fn string_end(text: &[u8], at: usize) -> Option<StringEnd>
    requires { at ≤ length text.now }
    ensures { EndMeans text.now at result }
{
    let mut i = at;
    let mut length = 0;
    while let StringStep::Byte(_, next) = string_step(text, i)? {
        i = next;
        length += 1;
    }
    Some(StringEnd { length, end: i + 1 })
}

// A string whose opening quote is at `start`.
fn string(text: &[u8], start: usize) -> Result<Token, Refusal>
    requires { start < length text.now }
    ensures { Placed text.now start (string_of (body_of (drop (start + 1) text.now))) result }
{
    let Some(found) = string_end(text, start + 1) else {
        return Err(Refusal {
            reason: Reason::NoToken,
            place: start,
        });
    };
    if syntax::STRING_BYTES < found.length {
        return Err(Refusal {
            reason: Reason::TokenTooLong,
            place: start,
        });
    }
    Ok(Token::String(
        found.length,
        Span {
            start,
            end: found.end,
        },
    ))
}

// A symbol or operator at `start`.
fn symbol_token(text: &[u8], start: usize) -> Result<Token, Refusal>
    requires { start < length text.now }
    ensures { Placed text.now start (symbol_in spellings (drop start text.now)) result }
{
    match signs::sign_at(text, start) {
        Some(Sign::Operator(j, n)) => Ok(Token::Operator(
            j,
            Span {
                start,
                end: start + n,
            },
        )),
        Some(Sign::Symbol(x, n)) => Ok(Token::Symbol(
            x,
            Span {
                start,
                end: start + n,
            },
        )),
        None => Err(Refusal {
            reason: Reason::NoToken,
            place: start,
        }),
    }
}

// The token at `p`, which is no blank.
fn token_from(text: &[u8], p: usize) -> Result<Token, Refusal>
    requires { AtToken text.now p }
    ensures { Scanned text.now p result }
{
    if text.len() <= p {
        return Ok(Token::End(p));
    }
    let b = text[p];
    if text::starts_name(b) {
        return tokens::name(text, p);
    }
    if text::is_digit(b) {
        return numerals::number(text, p);
    }
    if b == b'"' {
        return string(text, p);
    }
    symbol_token(text, p)
}

// The token at or after `at`.
pub fn token_at(text: &[u8], at: usize) -> Result<Token, Refusal>
    requires { at ≤ length text.now }
    ensures { Scanned text.now at result }
{
    let p = skip(text, at);
    token_from(text, p)
}
