// Why a source is not read.

ghost use Rattle.c0_tokens.specs.Tokens.{token_view};
ghost use Rattle.std.specs.Prelude.{◌≡◌};
ghost use Rattle.c0_parser.specs.Faults.{fault_at, read_fault_number, read_fault_position};
ghost use Rattle.c0_parser.specs.declared.fault.ReadFault.TheVariants.{Memory as NoMemory};

use c0_tokens::{Lexeme, Token, TokenFault};
use std::alloc::AllocError;
use thiserror::Error;

/// Why a source has no tree: the first token that no source can have there, by its first byte, counted from 0. The end of the source is a
/// token that stands at its length.
#[derive(Clone, Copy, Debug, PartialEq, Eq, Error)]
pub enum ReadFault {
    /// A byte that begins no token.
    #[error("the byte at {at} begins no token")]
    BadByte { at: u64 },
    /// A number with a leading 0 before a further digit, or above 2147483647.
    #[error("the number at byte {at} is bad")]
    BadNumber { at: u64 },
    /// A token with which the tokens before it begin no source.
    #[error("the token at byte {at} is unexpected")]
    Unexpected { at: u64 },
    /// The 65th bracket that is open at once, or the 513th token after the last `;`, `{`, `}` or the start.
    #[error("the source is too nested at byte {at}")]
    TooNested { at: u64 },
    /// More than 1,048,576 bytes.
    #[error("more than 1048576 bytes")]
    SourceTooLong,
    /// Want of memory.
    #[error("out of memory")]
    Memory,
}

impl ReadFault {
    /// The number that is printed for it: 10 to 14, or 15 for want of memory.
    pub fn number(&self) -> u32
        ensures { result ≡ read_fault_number self.now }
    {
        match self {
            ReadFault::BadByte { .. } => 10,
            ReadFault::BadNumber { .. } => 11,
            ReadFault::Unexpected { .. } => 12,
            ReadFault::TooNested { .. } => 13,
            ReadFault::SourceTooLong => 14,
            ReadFault::Memory => 15,
        }
    }

    /// The first byte of the token that cannot be, where the fault has one.
    pub fn at(&self) -> Option<u64>
        ensures { result ≡ read_fault_position self.now }
    {
        match self {
            ReadFault::BadByte { at } => Some(*at),
            ReadFault::BadNumber { at } => Some(*at),
            ReadFault::Unexpected { at } => Some(*at),
            ReadFault::TooNested { at } => Some(*at),
            ReadFault::SourceTooLong => None,
            ReadFault::Memory => None,
        }
    }
}

impl From<AllocError> for ReadFault {
    ghost from_gives = { λ _ e. e ≡ NoMemory };

    fn from(_: AllocError) -> Self {
        ReadFault::Memory
    }
}

/// The fault of a token that cannot be where it stands.
pub fn fault_of(t: &Token<'_>) -> ReadFault
    ensures { result ≡ fault_at (token_view t.now) }
{
    let at = u64::from(t.start);
    match t.lexeme {
        Lexeme::Faulty(TokenFault::BadByte) => ReadFault::BadByte { at },
        Lexeme::Faulty(TokenFault::BadNumber) => ReadFault::BadNumber { at },
        Lexeme::Faulty(TokenFault::TooNested) => ReadFault::TooNested { at },
        _ => ReadFault::Unexpected { at },
    }
}
