// What a token is; names and reserved words as tokens.
#![tactic(auto)]

ghost use Rattle.std.specs.Prelude.{◌≡◌, ◌≤◌, ◌<◌, length, drop};
ghost use Rattle.syntax.specs.Refusals.{refusal};
ghost use Rattle.syntax.specs.Token.{name_front};
ghost use Rattle.tokens.specs.Inner.Meaning.{Run, AtByte, class_of, place_of, WordMeans, Placed};
ghost use Rattle.tokens.specs.declared.Class.TheVariants.{NameBytes};

use syntax::{Binary, Reason, Refusal, Symbol};

// A literal that has no bytes of its own.
#[derive(Clone, Copy)]
pub enum Constant {
    Undefined,
    Error,
    Boolean(bool),
    Integer(u64),
    // The digits as one whole number, and how many stand after the point.
    Real(u64, u64),
}

// The place of a token's first byte, and the place behind it.
#[derive(Clone, Copy, PartialEq, Eq)]
pub struct Span {
    pub start: usize,
    pub end: usize,
}

#[derive(Clone, Copy)]
pub enum Token {
    // The text's length.
    End(usize),
    Word(Span),
    Constant(Constant, Span),
    // How many bytes it has after escapes comes first.
    String(usize, Span),
    Operator(Binary, Span),
    Symbol(Symbol, Span),
}

impl Token {
    // The place of its first byte; the text's length for the end.
    pub fn place(self) -> usize
        ensures { result ≡ place_of self }
    {
        match self {
            Token::End(place) => place,
            Token::Word(at)
            | Token::Constant(_, at)
            | Token::String(_, at)
            | Token::Operator(_, at)
            | Token::Symbol(_, at) => at.start,
        }
    }

    // The refusal where it does not fit the grammar.
    pub fn misfit(self) -> Refusal
        ensures { result ≡ refusal 4 (place_of self) }
    {
        Refusal {
            reason: Reason::Misfit,
            place: self.place(),
        }
    }
}

// Which bytes a run is of: digits, or those that a Name goes on with.
#[derive(Clone, Copy, PartialEq, Eq)]
pub enum Class {
    Digits,
    NameBytes,
}

impl Class {
    fn has(self, b: u8) -> bool
        ensures { result ≡ class_of self b }
    {
        match self {
            Class::Digits => text::is_digit(b),
            Class::NameBytes => text::continues_name(b),
        }
    }
}

// Where the bytes of a class from `at` on end.
pub fn run(text: &[u8], at: usize, class: Class) -> usize
    requires { at ≤ length text.now }
    ensures { Run (class_of class) text.now at result }
{
    for i in at..text.len() {
        if !class.has(text[i]) {
            return i;
        }
    }
    text.len()
}

// The word at a place: reserved, or a Name.
#[tactic(auto, unfolding(syntax::specs::Token::word_in, syntax::specs::Token::reserved, text::specs::Bytes::bytes), using(text::specs::Parts::part_slice))]
fn word(text: &[u8], at: Span) -> Token
    requires { (at.start < at.end) × (at.end ≤ length text.now) }
    ensures { WordMeans text.now at result }
{
    let w = &text[at.start..at.end];
    if text::same_name(b"true", w) {
        return Token::Constant(Constant::Boolean(true), at);
    }
    if text::same_name(b"false", w) {
        return Token::Constant(Constant::Boolean(false), at);
    }
    if text::same_name(b"undefined", w) {
        return Token::Constant(Constant::Undefined, at);
    }
    if text::same_name(b"error", w) {
        return Token::Constant(Constant::Error, at);
    }
    if text::same_name(b"is", w) {
        return Token::Operator(Binary::Is, at);
    }
    if text::same_name(b"isnt", w) {
        return Token::Operator(Binary::Isnt, at);
    }
    if text::same_name(b"parent", w) {
        return Token::Symbol(Symbol::Parent, at);
    }
    if text::same_name(b"other", w) {
        return Token::Symbol(Symbol::Other, at);
    }
    Token::Word(at)
}

// A reserved word or a Name whose first byte is at `start`.
pub fn name(text: &[u8], start: usize) -> Result<Token, Refusal>
    requires { AtByte (class_of NameBytes) text.now start }
    ensures { Placed text.now start (name_front (drop start text.now)) result }
{
    let end = run(text, start, Class::NameBytes);
    if syntax::NAME_BYTES < end - start {
        return Err(Refusal {
            reason: Reason::TokenTooLong,
            place: start,
        });
    }
    Ok(word(text, Span { start, end }))
}
