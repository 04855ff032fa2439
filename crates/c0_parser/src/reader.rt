// Tokens in a row.

ghost use Rattle.std.specs.Prelude.{◌≡◌, ◌∷◌, [], false, MatchOption};
ghost use Rattle.c0_tokens.specs.Tokens.{fixed, name as named, number, asm_text, lexeme_view};
ghost use Rattle.c0_parser.specs.Sorts.{an_asm_text};
ghost use Rattle.c0_parser.specs.Grammar.{sign, NAME, NUMBER};
ghost use Rattle.c0_parser.specs.Machine.{heads};
ghost use Rattle.c0_parser.specs.Contract.{as_seen, PieceGives, IsNotNext};
ghost use Rattle.c0_parser.specs.Views.{IsToken, IsName, IsNumber};
ghost use Rattle.c0_parser.specs.declared.reader.Halt.TheVariants.{Memory};

use c0_tokens::{Lexeme, Mark, Token};
use c0_tree::{Kind, Name, Span};
use std::alloc::{AllocError, AllocFailed, Global};

/// Why a part was not read.
#[derive(Debug, Drop)]
pub enum Halt {
    /// There is no memory for it.
    Memory,
    /// So many tokens are left, the first that cannot be in front.
    Left(usize),
}

impl From<AllocError> for Halt {
    ghost from_gives = { λ _ e. e ≡ Memory };

    fn from(_: AllocError) -> Self {
        Halt::Memory
    }
}

impl<T: Drop> From<AllocFailed<T>> for Halt {
    ghost from_gives = { λ _ e. e ≡ Memory };

    fn from(_: AllocFailed<T>) -> Self {
        Halt::Memory
    }
}

/// What was read so far, and the tokens left: what a loop that reads on begins with.
pub fn read_so_far<'a, T>(value: T, ts: &'a [Token<'a>]) -> (T, &'a [Token<'a>])
    ensures value { result.0 ≡ value }
    ensures rest { result.1.now ≡ ts.now }
{
    (value, ts)
}

/// The first token, and the others.
pub fn next<'a>(ts: &'a [Token<'a>]) -> Option<(Token<'a>, &'a [Token<'a>])>
    ensures { MatchOption result (ts.now ≡ []) (λ p. ts.now ≡ p.0 ∷ p.1.now) }
{
    match ts {
        [] => None,
        [t, rest @ ..] => Some((*t, rest)),
    }
}

/// The mark, where it stands next.
pub fn take<'a>(ts: &'a [Token<'a>], wanted: Mark) -> Option<(Token<'a>, &'a [Token<'a>])>
    ensures { MatchOption result (heads (sign wanted) (as_seen ts.now) ≡ false) (λ p. (ts.now ≡ p.0 ∷ p.1.now) × (lexeme_view p.0.lexeme ≡ fixed wanted)) }
{
    let (t, rest) = next(ts)?;
    match t.lexeme {
        Lexeme::Fixed(mark) if mark == wanted => Some((t, rest)),
        _ => None,
    }
}

/// The mark, which has to stand next.
pub fn expect<'a>(ts: &'a [Token<'a>], wanted: Mark) -> Result<(Token<'a>, &'a [Token<'a>]), Halt>
    ensures { PieceGives (sign wanted) IsToken ts.now result }
{
    match take(ts, wanted) {
        Some((t, rest)) => Ok((t, rest)),
        None => Err(Halt::Left(ts.len())),
    }
}

/// A name and its text, where one stands next.
pub fn take_name<'a>(ts: &'a [Token<'a>]) -> Option<(Token<'a>, &'a [u8], &'a [Token<'a>])>
    ensures { MatchOption result (heads NAME (as_seen ts.now) ≡ false) (λ p. (ts.now ≡ p.0 ∷ p.2.now) × (lexeme_view p.0.lexeme ≡ named p.1.now)) }
{
    let (t, rest) = next(ts)?;
    match t.lexeme {
        Lexeme::Name(text) => Some((t, text, rest)),
        _ => None,
    }
}

/// A name, which has to stand next.
pub fn name<'a>(alloc: Global, ts: &'a [Token<'a>]) -> Result<(Name, &'a [Token<'a>]), Halt>
    ensures { PieceGives NAME IsName ts.now result }
{
    match take_name(ts) {
        Some((t, text, rest)) => {
            let bytes = Vec::from_slice(alloc, text)?;
            let span = Span {
                start: t.start,
                end: t.end,
            };
            let name = Name {
                bytes,
                span,
                kind: Kind::Unresolved,
                number: 0,
            };
            Ok((name, rest))
        }
        None => Err(Halt::Left(ts.len())),
    }
}

/// A number and its value, where one stands next.
pub fn take_number<'a>(ts: &'a [Token<'a>]) -> Option<(Token<'a>, u32, &'a [Token<'a>])>
    ensures { MatchOption result (heads NUMBER (as_seen ts.now) ≡ false) (λ p. (ts.now ≡ p.0 ∷ p.2.now) × (lexeme_view p.0.lexeme ≡ number p.1)) }
{
    let (t, rest) = next(ts)?;
    match t.lexeme {
        Lexeme::Number(value) => Some((t, value, rest)),
        _ => None,
    }
}

/// A number, which has to stand next.
pub fn number_here<'a>(ts: &'a [Token<'a>]) -> Result<(u32, &'a [Token<'a>]), Halt>
    ensures { PieceGives NUMBER IsNumber ts.now result }
{
    match take_number(ts) {
        Some((_, value, rest)) => Ok((value, rest)),
        None => Err(Halt::Left(ts.len())),
    }
}

/// An asm text and its bytes, where one stands next.
pub fn take_asm<'a>(ts: &'a [Token<'a>]) -> Option<(Token<'a>, &'a [u8], &'a [Token<'a>])>
    ensures { MatchOption result (IsNotNext an_asm_text ts.now) (λ p. (ts.now ≡ p.0 ∷ p.2.now) × (lexeme_view p.0.lexeme ≡ asm_text p.1.now)) }
{
    let (t, rest) = next(ts)?;
    match t.lexeme {
        Lexeme::AsmText(text) => Some((t, text, rest)),
        _ => None,
    }
}
