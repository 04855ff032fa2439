// The arguments of a call.

ghost use Rattle.std.specs.Prelude.{◌≡◌, true, false, MatchOption};
ghost use Rattle.c0_tokens.specs.declared.token.Mark.TheVariants.{Comma};
ghost use Rattle.c0_parser.specs.Sorts.{mark as a_mark, among};
ghost use Rattle.c0_parser.specs.Grammar.{sign, ◌▸◌, many, EXPR, ARGS};
ghost use Rattle.c0_parser.specs.Machine.{heads, expr_starts};
ghost use Rattle.c0_parser.specs.Contract.{as_seen, GivesAny};
ghost use Rattle.c0_parser.specs.Views.{AreArgs};
ghost use Rattle.c0_parser.specs.Stmts.{AreMoreArgs};

use crate::expressions::expression;
use crate::reader::{Halt, next, read_so_far, take};
use c0_tokens::{Lexeme, Mark, Token};
use c0_tree::Expr;
use std::alloc::Global;

/// Whether an expression begins with the mark.
pub fn mark_starts_expression(mark: Mark) -> bool
    ensures { result ≡ among expr_starts (a_mark mark) }
{
    mark == Mark::Minus
        || mark == Mark::Not
        || mark == Mark::Star
        || mark == Mark::Ampersand
        || mark == Mark::True
        || mark == Mark::False
        || mark == Mark::Null
        || mark == Mark::OpenParen
}

// The tokens, where an expression begins.
fn expression_ahead<'a>(ts: &'a [Token<'a>]) -> Option<&'a [Token<'a>]>
    ensures { MatchOption result (heads EXPR (as_seen ts.now) ≡ false) (λ p. (p.now ≡ ts.now) × (heads EXPR (as_seen ts.now) ≡ true)) }
{
    let (t, _) = next(ts)?;
    match t.lexeme {
        Lexeme::Fixed(mark) if mark_starts_expression(mark) => Some(ts),
        Lexeme::Name(_) | Lexeme::Number(_) => Some(ts),
        _ => None,
    }
}

// The arguments that were read, and more of them, each with a comma before it.
fn more_arguments<'a>(
    alloc: Global,
    first: Vec<Expr>,
    ts: &'a [Token<'a>],
) -> Result<(Vec<Expr>, &'a [Token<'a>]), Halt>
    ensures { GivesAny (many (sign Comma ▸ EXPR)) (AreMoreArgs first) ts.now result }
{
    let (mut list, mut rest) = read_so_far(first, ts);
    while let Some((_, after_comma)) = take(rest, Mark::Comma) {
        let (part, after) = expression(alloc, after_comma)?;
        list.push(part.expr)?;
        rest = after;
    }
    Ok((list, rest))
}

/// The arguments of a call, up to its `)`.
pub fn arguments<'a>(
    alloc: Global,
    ts: &'a [Token<'a>],
) -> Result<(Vec<Expr>, &'a [Token<'a>]), Halt>
    ensures { GivesAny ARGS AreArgs ts.now result }
{
    match expression_ahead(ts) {
        Some(here) => {
            let (first, rest) = expression(alloc, here)?;
            let mut list = Vec::new(alloc);
            list.push(first.expr)?;
            more_arguments(alloc, list, rest)
        }
        None => Ok((Vec::new(alloc), ts)),
    }
}
