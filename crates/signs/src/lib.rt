// The symbol or operator at a place of a text.
#![tactic(auto)]

ghost use Rattle.std.specs.Prelude.{◌≡◌, [], ◌∷◌, ◌<◌, length, get_or, drop, take};
ghost use Rattle.syntax.specs.Token.{symbol_in, spellings};
ghost use Rattle.signs.specs.Inner.Meaning.{sign_front, SignMeans};

use syntax::{Binary, Symbol};

// A symbol or operator, and how many bytes it has.
#[derive(Clone, Copy, PartialEq, Eq)]
pub enum Sign {
    Operator(Binary, usize),
    Symbol(Symbol, usize),
}

// The spellings of one byte.
#[tactic(auto, unfolding(syntax::specs::Token::symbol_in, syntax::specs::Token::spellings, syntax::specs::Token::begins, text::specs::Bytes::bytes))]
fn short_sign(b: u8) -> Option<Sign>
    ensures { sign_front result ≡ symbol_in (drop 8 spellings) (b ∷ []) }
{
    match b {
        b'<' => Some(Sign::Operator(Binary::Less, 1)),
        b'>' => Some(Sign::Operator(Binary::Greater, 1)),
        b'+' => Some(Sign::Operator(Binary::Add, 1)),
        b'-' => Some(Sign::Operator(Binary::Subtract, 1)),
        b'*' => Some(Sign::Operator(Binary::Multiply, 1)),
        b'/' => Some(Sign::Operator(Binary::Divide, 1)),
        b'%' => Some(Sign::Operator(Binary::Remainder, 1)),
        b'!' => Some(Sign::Symbol(Symbol::Exclamation, 1)),
        b'?' => Some(Sign::Symbol(Symbol::Question, 1)),
        b':' => Some(Sign::Symbol(Symbol::Colon, 1)),
        b'(' => Some(Sign::Symbol(Symbol::OpenParenthesis, 1)),
        b')' => Some(Sign::Symbol(Symbol::CloseParenthesis, 1)),
        b'[' => Some(Sign::Symbol(Symbol::OpenBracket, 1)),
        b']' => Some(Sign::Symbol(Symbol::CloseBracket, 1)),
        b';' => Some(Sign::Symbol(Symbol::Semicolon, 1)),
        b'=' => Some(Sign::Symbol(Symbol::Assign, 1)),
        b'.' => Some(Sign::Symbol(Symbol::Point, 1)),
        _ => None,
    }
}

// The spellings of more than one byte, where `b`, `c` and `d` come next.
#[tactic(auto, unfolding(syntax::specs::Token::symbol_in, syntax::specs::Token::spellings, syntax::specs::Token::begins, text::specs::Bytes::bytes))]
fn long_sign(b: u8, c: u8, d: u8) -> Option<Sign>
    ensures { sign_front result ≡ symbol_in (take 8 spellings) (b ∷ c ∷ d ∷ []) }
{
    match (b, c, d) {
        (b'=', b'?', b'=') => Some(Sign::Operator(Binary::Is, 3)),
        (b'=', b'!', b'=') => Some(Sign::Operator(Binary::Isnt, 3)),
        (b'|', b'|', _) => Some(Sign::Operator(Binary::Or, 2)),
        (b'&', b'&', _) => Some(Sign::Operator(Binary::And, 2)),
        (b'=', b'=', _) => Some(Sign::Operator(Binary::Equal, 2)),
        (b'!', b'=', _) => Some(Sign::Operator(Binary::NotEqual, 2)),
        (b'<', b'=', _) => Some(Sign::Operator(Binary::LessOrEqual, 2)),
        (b'>', b'=', _) => Some(Sign::Operator(Binary::GreaterOrEqual, 2)),
        _ => None,
    }
}

// The byte at `i`, 0 where the text has ended.
fn ahead(text: &[u8], i: usize) -> u8
    ensures { result ≡ get_or text.now i 0 }
{
    text.get(i).copied().unwrap_or(0)
}

// The longest symbol or operator at `p`.
pub fn sign_at(text: &[u8], p: usize) -> Option<Sign>
    requires { p < length text.now }
    ensures { SignMeans text.now p result }
{
    let b = text[p];
    long_sign(b, ahead(text, p + 1), ahead(text, p + 2)).or(short_sign(b))
}
