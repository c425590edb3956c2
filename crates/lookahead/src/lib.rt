// What the readers ask of the token at a place.
#![tactic(auto)]

ghost use Rattle.std.specs.Prelude.{◌≤◌, length};
ghost use Rattle.lookahead.specs.Inner.Ask.{SymbolIs, WordIs, BinaryIs, UnaryIs};

use syntax::{Binary, Refusal, Symbol, Unary};
use tokens::{Span, Token};

// The symbol, or the refusal of what is there.
pub fn symbol_at(text: &[u8], at: usize, symbol: Symbol) -> Result<Span, Refusal>
    requires { at ≤ length text.now }
    ensures { SymbolIs text.now at symbol result }
{
    match lexer::token_at(text, at)? {
        Token::Symbol(found, span) if found == symbol => Ok(span),
        token => Err(token.misfit()),
    }
}

// A Name, or the refusal of what is there.
pub fn word_at(text: &[u8], at: usize) -> Result<Span, Refusal>
    requires { at ≤ length text.now }
    ensures { WordIs text.now at result }
{
    match lexer::token_at(text, at)? {
        Token::Word(span) => Ok(span),
        token => Err(token.misfit()),
    }
}

// An operator of two operands that binds at `level`.
pub fn binary_at(text: &[u8], at: usize, level: usize) -> Option<(Binary, Span)>
    requires { at ≤ length text.now }
    ensures { BinaryIs text.now at level result }
{
    match lexer::token_at(text, at) {
        Ok(Token::Operator(operator, span)) if operator.binds() == level => Some((operator, span)),
        _ => None,
    }
}

// An operator of one operand.
pub fn unary_at(text: &[u8], at: usize) -> Option<(Unary, Span)>
    requires { at ≤ length text.now }
    ensures { UnaryIs text.now at result }
{
    match lexer::token_at(text, at) {
        Ok(Token::Symbol(Symbol::Exclamation, span)) => Some((Unary::Not, span)),
        Ok(Token::Operator(Binary::Add, span)) => Some((Unary::Plus, span)),
        Ok(Token::Operator(Binary::Subtract, span)) => Some((Unary::Minus, span)),
        _ => None,
    }
}
