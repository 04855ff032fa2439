// How deep the brackets of a source nest.
ghost use Rattle.std.specs.Prelude.{◌≡◌, ◌+◌, ◌<◌, ◌≤◌};
ghost use Rattle.c0_tokens.specs.Nesting.{opens as opens_of, closes as closes_of, ends_run as ends_run_of, outside, depth_after};
ghost use Rattle.c0_tokens.specs.Nesting.{is_too_nested as is_too_nested_of, at_depth};
ghost use Rattle.c0_tokens.specs.Tokens.{lexeme_view};
ghost use Rattle.c0_tokens.specs.View.{depth_view};

use crate::token::{Lexeme, Mark, TokenFault};

// The most brackets that may be open at once.
const MAX_OPEN: u32 = 64;

// The most tokens after the last `;`, `{`, `}` or the start.
const MAX_RUN: u32 = 512;

/// How many brackets are open, and how many tokens have come after the last `;`, `{`, `}` or the start.
#[derive(Clone, Copy)]
pub struct Depth {
    pub brackets: u32,
    pub run: u32,
}

// Whether it opens a bracket.
fn opens(lexeme: &Lexeme<'_>) -> bool
    ensures { result ≡ opens_of (lexeme_view lexeme.now) }
{
    matches!(
        lexeme,
        Lexeme::Fixed(Mark::OpenParen | Mark::OpenBracket | Mark::OpenBrace)
    )
}

// Whether it closes a bracket.
fn closes(lexeme: &Lexeme<'_>) -> bool
    ensures { result ≡ closes_of (lexeme_view lexeme.now) }
{
    matches!(
        lexeme,
        Lexeme::Fixed(Mark::CloseParen | Mark::CloseBracket | Mark::CloseBrace)
    )
}

// Whether no token of the run so far counts behind it.
fn ends_run(lexeme: &Lexeme<'_>) -> bool
    ensures { result ≡ ends_run_of (lexeme_view lexeme.now) }
{
    matches!(
        lexeme,
        Lexeme::Fixed(Mark::Semicolon | Mark::OpenBrace | Mark::CloseBrace)
    )
}

impl Depth {
    /// Before the first token.
    pub fn outside() -> Depth
        ensures { depth_view result ≡ outside }
    {
        Depth {
            brackets: 0,
            run: 0,
        }
    }

    // Whether a token here is too deep, or comes too late in its run.
    fn is_too_nested(&self, lexeme: &Lexeme<'_>) -> bool
        ensures { result ≡ is_too_nested_of (depth_view self.now) (lexeme_view lexeme.now) }
    {
        (opens(lexeme) && self.brackets >= MAX_OPEN) || self.run >= MAX_RUN
    }

    /// A token as it is read at this depth.
    pub fn read<'a>(&self, lexeme: Lexeme<'a>) -> Lexeme<'a>
        ensures { lexeme_view result ≡ at_depth (depth_view self.now) (lexeme_view lexeme.entry) }
    {
        match lexeme {
            Lexeme::Faulty(fault) => Lexeme::Faulty(fault),
            other if self.is_too_nested(&other) => Lexeme::Faulty(TokenFault::TooNested),
            other => other,
        }
    }

    /// The depth after one more token.
    pub fn after(&self, lexeme: &Lexeme<'_>) -> Depth
        requires brackets { self.now.brackets ≤ 1048576 }
        requires run { self.now.run ≤ 1048576 }
        ensures { depth_view result ≡ depth_after (depth_view self.now) (lexeme_view lexeme.now) }
    {
        let brackets = if opens(lexeme) {
            self.brackets + 1
        } else if closes(lexeme) {
            self.brackets.saturating_sub(1)
        } else {
            self.brackets
        };
        let run = if ends_run(lexeme) { 0 } else { self.run + 1 };
        Depth { brackets, run }
    }
}
