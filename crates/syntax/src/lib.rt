// The words of the language that every layer shares: document 01's bounds, the operators and the other symbols.

// 'Numbers that bound it': each is itself accepted, and one more is refused.
#![tactic(auto)]

ghost use Rattle.std.specs.Prelude.{◌≡◌};
ghost use Rattle.syntax.specs.Grammar.{binds_of};
ghost use Rattle.syntax.specs.Refusals.{number_of};

pub const TEXT_BYTES: usize = 16384;

pub const DEFINITIONS: usize = 256;

pub const NODES: usize = 1024;

pub const NAME_BYTES: usize = 64;

pub const STRING_BYTES: usize = 1024;

pub const LEVELS: usize = 64;

// Operators of two operands, loosest first: 'Binding, loosest first'.
#[derive(Clone, Copy, PartialEq, Eq)]
pub enum Binary {
    Or,
    And,
    Equal,
    NotEqual,
    Is,
    Isnt,
    Less,
    LessOrEqual,
    Greater,
    GreaterOrEqual,
    Add,
    Subtract,
    Multiply,
    Divide,
    Remainder,
}

impl Binary {
    // How tight it binds.
    pub fn binds(self) -> usize
        ensures { result ≡ binds_of self }
    {
        match self {
            Binary::Or => 1,
            Binary::And => 2,
            Binary::Equal | Binary::NotEqual | Binary::Is | Binary::Isnt => 3,
            Binary::Less | Binary::LessOrEqual | Binary::Greater | Binary::GreaterOrEqual => 4,
            Binary::Add | Binary::Subtract => 5,
            Binary::Multiply | Binary::Divide | Binary::Remainder => 6,
        }
    }
}

// Operators of one operand: 'unary `! + -`'.
#[derive(Clone, Copy, PartialEq, Eq)]
pub enum Unary {
    Not,
    Plus,
    Minus,
}

// What a token can be that is no name, no literal and no operator of two operands.
#[derive(Clone, Copy, PartialEq, Eq)]
pub enum Symbol {
    Exclamation,
    Question,
    Colon,
    OpenParenthesis,
    CloseParenthesis,
    OpenBracket,
    CloseBracket,
    Semicolon,
    Assign,
    Point,
    Other,
    Parent,
}

// Why a call is refused, by the numbers of docs/LANGUAGE.md.
#[derive(Clone, Copy, PartialEq, Eq)]
pub enum Reason {
    MemoryTooSmall = 1,
    TextTooLong = 2,
    NoToken = 3,
    Misfit = 4,
    NumberTooLarge = 5,
    NestedTooDeep = 6,
    TokenTooLong = 7,
    DefinedTwice = 8,
    TooMany = 9,
    NotWellFormed = 10,
    PrintTooLong = 11,
    TooManyLines = 16,
}

impl Reason {
    // The number that the commands and other languages show.
    pub fn number(self) -> u8
        ensures { result ≡ number_of self }
    {
        self as u8
    }
}

// A refusal, and the place of the byte that it is about; 0 where it is about no byte.
#[derive(Clone, Copy, PartialEq, Eq)]
pub struct Refusal {
    pub reason: Reason,
    pub place: usize,
}

// A refusal that is about no byte.
impl From<Reason> for Refusal {
    ghost from_gives = { λ x r. r ≡ record { reason = x; place = 0 } };

    fn from(reason: Reason) -> Refusal {
        Refusal { reason, place: 0 }
    }
}
