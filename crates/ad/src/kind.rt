ghost use Rattle.std.specs.Prelude.{◌≡◌};
ghost use Rattle.ad.specs.Layout.{code_of};
ghost use Rattle.ad.specs.Stored.{Decodes, arity, is_reference};

use syntax::{Binary, Unary};

// What a node is.
#[derive(Clone, Copy, PartialEq, Eq)]
pub enum Kind {
    Undefined,
    Error,
    Boolean,
    Integer,
    Real,
    String,
    // A reference `name`.
    Own,
    // A reference `other.name`.
    Other,
    Unary(Unary),
    Conditional,
    Binary(Binary),
}

// A number that is no kind's.
#[derive(Clone, Copy, PartialEq, Eq)]
pub struct UnknownKind(pub u64);

impl Kind {
    // The number that stands for it in a stored node.
    pub fn code(self) -> u64
        ensures { result ≡ code_of self }
    {
        match self {
            Kind::Undefined => 1,
            Kind::Error => 2,
            Kind::Boolean => 3,
            Kind::Integer => 4,
            Kind::Real => 5,
            Kind::String => 6,
            Kind::Own => 7,
            Kind::Other => 8,
            Kind::Unary(Unary::Not) => 9,
            Kind::Unary(Unary::Plus) => 10,
            Kind::Unary(Unary::Minus) => 11,
            Kind::Conditional => 12,
            Kind::Binary(Binary::Or) => 13,
            Kind::Binary(Binary::And) => 14,
            Kind::Binary(Binary::Equal) => 15,
            Kind::Binary(Binary::NotEqual) => 16,
            Kind::Binary(Binary::Is) => 17,
            Kind::Binary(Binary::Isnt) => 18,
            Kind::Binary(Binary::Less) => 19,
            Kind::Binary(Binary::LessOrEqual) => 20,
            Kind::Binary(Binary::Greater) => 21,
            Kind::Binary(Binary::GreaterOrEqual) => 22,
            Kind::Binary(Binary::Add) => 23,
            Kind::Binary(Binary::Subtract) => 24,
            Kind::Binary(Binary::Multiply) => 25,
            Kind::Binary(Binary::Divide) => 26,
            Kind::Binary(Binary::Remainder) => 27,
        }
    }

    // How many operands a node of this kind has.
    #[inline(always)]
    #[tactic(auto, unfolding(crate::specs::Stored::arity))]
    pub fn arity(self) -> usize
        ensures { result ≡ arity (code_of self) }
    {
        match self {
            Kind::Unary(_) => 1,
            Kind::Binary(_) => 2,
            Kind::Conditional => 3,
            _ => 0,
        }
    }

    // Whether a node of this kind is a reference.
    #[inline(always)]
    pub fn is_reference(self) -> bool
        ensures { result ≡ is_reference (code_of self) }
    {
        matches!(self, Kind::Own | Kind::Other)
    }
}

impl TryFrom<u64> for Kind {
    type Error = UnknownKind;

    ghost try_from_gives = { Decodes };

    #[inline(always)]
    #[tactic(auto, unfolding(crate::specs::Stored::kind_of))]
    fn try_from(code: u64) -> Result<Self, UnknownKind> {
        match code {
            1 => Ok(Kind::Undefined),
            2 => Ok(Kind::Error),
            3 => Ok(Kind::Boolean),
            4 => Ok(Kind::Integer),
            5 => Ok(Kind::Real),
            6 => Ok(Kind::String),
            7 => Ok(Kind::Own),
            8 => Ok(Kind::Other),
            9 => Ok(Kind::Unary(Unary::Not)),
            10 => Ok(Kind::Unary(Unary::Plus)),
            11 => Ok(Kind::Unary(Unary::Minus)),
            12 => Ok(Kind::Conditional),
            13 => Ok(Kind::Binary(Binary::Or)),
            14 => Ok(Kind::Binary(Binary::And)),
            15 => Ok(Kind::Binary(Binary::Equal)),
            16 => Ok(Kind::Binary(Binary::NotEqual)),
            17 => Ok(Kind::Binary(Binary::Is)),
            18 => Ok(Kind::Binary(Binary::Isnt)),
            19 => Ok(Kind::Binary(Binary::Less)),
            20 => Ok(Kind::Binary(Binary::LessOrEqual)),
            21 => Ok(Kind::Binary(Binary::Greater)),
            22 => Ok(Kind::Binary(Binary::GreaterOrEqual)),
            23 => Ok(Kind::Binary(Binary::Add)),
            24 => Ok(Kind::Binary(Binary::Subtract)),
            25 => Ok(Kind::Binary(Binary::Multiply)),
            26 => Ok(Kind::Binary(Binary::Divide)),
            27 => Ok(Kind::Binary(Binary::Remainder)),
            _ => Err(UnknownKind(code)),
        }
    }
}
