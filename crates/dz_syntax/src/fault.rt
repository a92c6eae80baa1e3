//! The first fault of a text, and its kinds.

ghost use Rattle.std.specs.Prelude.{◌≡◌, length};
ghost use Rattle.dz_syntax.specs.declared.fault.Stop.TheVariants.{Memory};
ghost use Rattle.dz_syntax.specs.declared.fault.Fault.{Fault};
ghost use Rattle.dz_syntax.specs.Faults.{unexpected_kind};

use crate::token::Token;
use std::alloc::{AllocError, AllocFailed};

/// What is wrong with a text. Where several kinds hold at one token, the one that stands first here
/// is told.
#[derive(Clone, Copy, Debug, PartialEq, Eq)]
pub enum SyntaxKind {
    /// The byte begins no token.
    BadByte,
    /// The grammar has no such token here.
    Unexpected,
    /// The name is not declared, or not as what stands here.
    Unknown,
    /// The name is declared already, or the symbol has a value or a function already.
    Twice,
    /// A coefficient, numerator or denominator above `2^127 - 1`.
    Literal,
    /// A number above 65,535 after `^`.
    Exponent,
    /// The fifth independent, or the seventeenth dependent.
    Names,
    /// A `(` inside 64 others.
    Deep,
    /// Memory ran out; the place is 0.
    Memory,
    /// A denominator 0.
    Denominator,
    /// The 61st name in one pair of brackets.
    Order,
}

impl SyntaxKind {
    ghost use Rattle.std.specs.Prelude.{◌≡◌};
    ghost use Rattle.dz_syntax.specs.Faults.{text_of};

    /// What a message says of the fault; nothing where memory ran out.
    pub fn text(self) -> &'static [u8]
        ensures { result.now ≡ text_of self }
    {
        match self {
            SyntaxKind::BadByte => b"bad byte",
            SyntaxKind::Unexpected => b"unexpected token",
            SyntaxKind::Unknown => b"unknown name",
            SyntaxKind::Twice => b"name twice",
            SyntaxKind::Literal => b"literal too wide",
            SyntaxKind::Exponent => b"exponent too wide",
            SyntaxKind::Names => b"too many names",
            SyntaxKind::Deep => b"too deep",
            SyntaxKind::Memory => b"",
            SyntaxKind::Denominator => b"zero denominator",
            SyntaxKind::Order => b"order too high",
        }
    }
}

/// A fault, at the token from which on `left` bytes are left.
#[derive(Clone, Copy, Debug, PartialEq, Eq)]
pub struct Fault {
    pub left: usize,
    pub kind: SyntaxKind,
}

/// The first fault of a text: the byte at which its token begins, counted from 0, and its kind.
#[derive(Clone, Copy, Debug, PartialEq, Eq)]
pub struct SyntaxFault {
    pub place: usize,
    pub kind: SyntaxKind,
}

/// Why a reader stops.
#[derive(Debug, Drop)]
pub enum Stop {
    /// Memory ran out.
    Memory,
    /// The text has a fault.
    Fault(Fault),
}

impl From<AllocError> for Stop {
    ghost from_gives = { λ _ e. e ≡ Memory };

    fn from(_e: AllocError) -> Stop {
        Stop::Memory
    }
}

impl<T: Drop> From<AllocFailed<T>> for Stop {
    ghost from_gives = { λ _ e. e ≡ Memory };

    fn from(_e: AllocFailed<T>) -> Stop {
        Stop::Memory
    }
}

/// The fault of a kind at the token at the front of a text.
pub(crate) fn fault_at(text: &[u8], kind: SyntaxKind) -> Stop
    ensures { result ≡ Stop.Fault (record { left = length text.now; kind = kind }) }
{
    Stop::Fault(Fault {
        left: text.len(),
        kind,
    })
}

/// The fault of a token that may not stand here.
pub(crate) fn unexpected(text: &[u8], token: Token) -> Stop
    ensures { result
        ≡ Stop.Fault (record { left = length text.now; kind = unexpected_kind token }) }
{
    match token {
        Token::Bad => fault_at(text, SyntaxKind::BadByte),
        _ => fault_at(text, SyntaxKind::Unexpected),
    }
}
