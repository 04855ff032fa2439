// Statements.

ghost use Rattle.std.specs.Prelude.{◌≡◌, true, false, MatchOption};
ghost use Rattle.c0_tree.specs.View.{expr_view, stmt_view};
ghost use Rattle.c0_parser.specs.Sorts.{mark as a_mark, among};
ghost use Rattle.c0_parser.specs.Grammar.{the, statement, block, many, maybe, sign, ◌▸◌, code, CALL, EXPR, RIGHT};
ghost use Rattle.c0_parser.specs.Machine.{heads, picks, rule_starts};
ghost use Rattle.c0_parser.specs.Contract.{as_seen, PieceGives, GivesAny};
ghost use Rattle.c0_parser.specs.Views.{IsStmt, AreStmts, IsBlock, IsRight, IsBody, right_stmt};
ghost use Rattle.c0_parser.specs.Stmts.{ASSIGNMENT, CHOICE, LOOP, OTHERWISE, RETURNED, IsStmtOf, IsOtherwise, IsReturned, Opens, choice_view, loop_view};

use crate::arguments::{arguments, mark_starts_expression};
use crate::expressions::{expression, unary};
use crate::reader::{Halt, expect, name, next, read_so_far, take, take_name};
use crate::types::{lines, type_of};
use c0_tokens::{Lexeme, Mark, Token};
use c0_tree::{Body, CType, Code, Expr, Name, Span, Stmt};
use std::alloc::Global;

/// Statements in braces, and where they stand with these.
#[derive(Drop)]
pub struct Block {
    pub stmts: Vec<Stmt>,
    pub span: Span,
}

/// The right side of an assignment.
#[derive(Drop)]
pub enum Right {
    /// An expression.
    Stored(Expr),
    /// A call: where it stands, the function's name and the arguments.
    Called(Span, Name, Vec<Expr>),
    /// `new`: the type, and where the type stands.
    Made(CType, Span),
}

/// A word and the test behind it.
#[derive(Drop)]
pub struct Test {
    /// The first byte of the word.
    pub start: u32,
    /// The test.
    pub expr: Expr,
}

// Whether a call begins here: a name with `(` behind it.
fn starts_call<'a>(ts: &'a [Token<'a>]) -> bool
    ensures { result ≡ picks CALL EXPR (as_seen ts.now) }
{
    match take_name(ts) {
        Some((_, _, rest)) => next_is(rest, Mark::OpenParen),
        None => false,
    }
}

// Whether the mark stands next.
fn next_is<'a>(ts: &'a [Token<'a>], wanted: Mark) -> bool
    ensures { result ≡ heads (sign wanted) (as_seen ts.now) }
{
    match next(ts) {
        Some((t, _)) => match t.lexeme {
            Lexeme::Fixed(mark) => mark == wanted,
            _ => false,
        },
        None => false,
    }
}

// A call.
fn call<'a>(alloc: Global, ts: &'a [Token<'a>]) -> Result<(Right, &'a [Token<'a>]), Halt>
    ensures { PieceGives CALL IsRight ts.now result }
{
    let (function, rest) = name(alloc, ts)?;
    let (_, rest) = expect(rest, Mark::OpenParen)?;
    let (args, rest) = arguments(alloc, rest)?;
    let (closing, rest) = expect(rest, Mark::CloseParen)?;
    let span = Span {
        start: function.span.start,
        end: closing.end,
    };
    Ok((Right::Called(span, function, args), rest))
}

/// The right side of an assignment.
pub fn right_side<'a>(alloc: Global, ts: &'a [Token<'a>]) -> Result<(Right, &'a [Token<'a>]), Halt>
    ensures { PieceGives RIGHT IsRight ts.now result }
{
    if let Some((_, after)) = take(ts, Mark::New) {
        let (made, rest) = type_of(alloc, after)?;
        return Ok((Right::Made(made.ty, made.span), rest));
    }
    if starts_call(ts) {
        return call(alloc, ts);
    }
    let (part, rest) = expression(alloc, ts)?;
    Ok((Right::Stored(part.expr), rest))
}

// The statement that stores a right side.
fn storing(span: Span, place: Expr, right: Right) -> Stmt
    ensures { stmt_view result ≡ right_stmt span (expr_view place) right }
{
    match right {
        Right::Stored(value) => Stmt::Assign { span, place, value },
        Right::Called(call_span, function, args) => Stmt::Call {
            span,
            place,
            call_span,
            function,
            args,
        },
        Right::Made(ty, ty_span) => Stmt::New {
            span,
            place,
            ty,
            ty_span,
        },
    }
}

// An assignment.
fn assignment<'a>(alloc: Global, ts: &'a [Token<'a>]) -> Result<(Stmt, &'a [Token<'a>]), Halt>
    ensures { PieceGives ASSIGNMENT IsStmtOf ts.now result }
{
    let (place, rest) = unary(alloc, ts)?;
    let (_, rest) = expect(rest, Mark::Assign)?;
    let (right, rest) = right_side(alloc, rest)?;
    let (last, rest) = expect(rest, Mark::Semicolon)?;
    let span = Span {
        start: place.span.start,
        end: last.end,
    };
    let stmt = storing(span, place.expr, right);
    Ok((stmt, rest))
}

// The word, and a test in parentheses.
fn word_and_test<'a>(
    alloc: Global,
    ts: &'a [Token<'a>],
    word: Mark,
) -> Result<(Test, &'a [Token<'a>]), Halt>
    ensures { Opens word ts.now result }
{
    let (first, rest) = expect(ts, word)?;
    let (_, rest) = expect(rest, Mark::OpenParen)?;
    let (part, rest) = expression(alloc, rest)?;
    let (_, rest) = expect(rest, Mark::CloseParen)?;
    let test = Test {
        start: first.start,
        expr: part.expr,
    };
    Ok((test, rest))
}

// Whether a statement begins with the mark.
fn mark_starts_statement(mark: Mark) -> bool
    ensures { result ≡ among (rule_starts statement) (a_mark mark) }
{
    mark == Mark::If || mark == Mark::While || mark_starts_expression(mark)
}

// The tokens, where a statement begins.
fn statement_ahead<'a>(ts: &'a [Token<'a>]) -> Option<&'a [Token<'a>]>
    ensures { MatchOption result (heads (the statement) (as_seen ts.now) ≡ false) (λ p. (p.now ≡ ts.now) × (heads (the statement) (as_seen ts.now) ≡ true)) }
{
    let (t, _) = next(ts)?;
    match t.lexeme {
        Lexeme::Fixed(mark) if mark_starts_statement(mark) => Some(ts),
        Lexeme::Name(_) | Lexeme::Number(_) => Some(ts),
        _ => None,
    }
}

// The statement of an `if`.
fn choice_of(alloc: Global, test: Test, yes: Block, no: Option<Block>) -> Stmt
    ensures { stmt_view result ≡ choice_view test yes no }
{
    match no {
        Some(other) => {
            let span = Span {
                start: test.start,
                end: other.span.end,
            };
            Stmt::If {
                span,
                test: test.expr,
                yes: yes.stmts,
                no: other.stmts,
            }
        }
        None => {
            let span = Span {
                start: test.start,
                end: yes.span.end,
            };
            Stmt::If {
                span,
                test: test.expr,
                yes: yes.stmts,
                no: Vec::new(alloc),
            }
        }
    }
}

// The statement of a `while`.
fn loop_of(test: Test, block: Block) -> Stmt
    ensures { stmt_view result ≡ loop_view test block }
{
    let span = Span {
        start: test.start,
        end: block.span.end,
    };
    Stmt::While {
        span,
        test: test.expr,
        body: block.stmts,
    }
}

/// A statement.
#[cycle(statements)]
pub fn statement<'a>(alloc: Global, ts: &'a [Token<'a>]) -> Result<(Stmt, &'a [Token<'a>]), Halt>
    ensures { PieceGives (the statement) IsStmt ts.now result }
{
    if next_is(ts, Mark::If) {
        return choice(alloc, ts);
    }
    if next_is(ts, Mark::While) {
        return repetition(alloc, ts);
    }
    match statement_ahead(ts) {
        Some(here) => assignment(alloc, here),
        None => Err(Halt::Left(ts.len())),
    }
}

// `if`, a test, a block, and perhaps `else` and a block.
#[cycle(statements)]
fn choice<'a>(alloc: Global, ts: &'a [Token<'a>]) -> Result<(Stmt, &'a [Token<'a>]), Halt>
    ensures { PieceGives CHOICE IsStmtOf ts.now result }
{
    let (test, rest) = word_and_test(alloc, ts, Mark::If)?;
    let (yes, rest) = braces(alloc, rest)?;
    let (no, rest) = otherwise(alloc, rest)?;
    let stmt = choice_of(alloc, test, yes, no);
    Ok((stmt, rest))
}

// Perhaps `else` and a block.
#[cycle(statements)]
fn otherwise<'a>(
    alloc: Global,
    ts: &'a [Token<'a>],
) -> Result<(Option<Block>, &'a [Token<'a>]), Halt>
    ensures { GivesAny OTHERWISE IsOtherwise ts.now result }
{
    if let Some((_, after)) = take(ts, Mark::Else) {
        let (block, rest) = braces(alloc, after)?;
        return Ok((Some(block), rest));
    }
    Ok((None, ts))
}

// `while`, a test and a block.
#[cycle(statements)]
fn repetition<'a>(alloc: Global, ts: &'a [Token<'a>]) -> Result<(Stmt, &'a [Token<'a>]), Halt>
    ensures { PieceGives LOOP IsStmtOf ts.now result }
{
    let (test, rest) = word_and_test(alloc, ts, Mark::While)?;
    let (block, rest) = braces(alloc, rest)?;
    let stmt = loop_of(test, block);
    Ok((stmt, rest))
}

/// Statements, as many as there are.
#[cycle(statements)]
pub fn statements<'a>(
    alloc: Global,
    ts: &'a [Token<'a>],
) -> Result<(Vec<Stmt>, &'a [Token<'a>]), Halt>
    ensures { GivesAny (many (the statement)) AreStmts ts.now result }
{
    let (mut stmts, mut rest) = read_so_far(Vec::new(alloc), ts);
    while let Some(here) = statement_ahead(rest) {
        let (stmt, after) = statement(alloc, here)?;
        stmts.push(stmt)?;
        rest = after;
    }
    Ok((stmts, rest))
}

/// Statements in braces.
#[cycle(statements)]
pub fn braces<'a>(alloc: Global, ts: &'a [Token<'a>]) -> Result<(Block, &'a [Token<'a>]), Halt>
    ensures { PieceGives (the block) IsBlock ts.now result }
{
    let (opening, rest) = expect(ts, Mark::OpenBrace)?;
    let (stmts, rest) = statements(alloc, rest)?;
    let (closing, rest) = expect(rest, Mark::CloseBrace)?;
    let span = Span {
        start: opening.start,
        end: closing.end,
    };
    Ok((Block { stmts, span }, rest))
}

// `return`, an expression, `;` and the closing brace.
fn returned<'a>(alloc: Global, ts: &'a [Token<'a>]) -> Result<(Expr, &'a [Token<'a>]), Halt>
    ensures { PieceGives RETURNED IsReturned ts.now result }
{
    let (_, rest) = expect(ts, Mark::Return)?;
    let (part, rest) = expression(alloc, rest)?;
    let (_, rest) = expect(rest, Mark::Semicolon)?;
    let (_, rest) = expect(rest, Mark::CloseBrace)?;
    Ok((part.expr, rest))
}

/// Declarations, statements and a returned expression in braces.
pub fn code<'a>(alloc: Global, ts: &'a [Token<'a>]) -> Result<(Body, &'a [Token<'a>]), Halt>
    ensures { PieceGives (the code) IsBody ts.now result }
{
    let (_, rest) = expect(ts, Mark::OpenBrace)?;
    let (locals, rest) = lines(alloc, rest)?;
    let (stmts, rest) = statements(alloc, rest)?;
    let (answer, rest) = returned(alloc, rest)?;
    Ok((
        Body::Code(Code {
            locals,
            stmts,
            answer,
        }),
        rest,
    ))
}
