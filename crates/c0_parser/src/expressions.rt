// Expressions, by recursive descent.

ghost use Rattle.std.specs.Prelude.{◌≡◌, ◌∷◌, [], ◌+◌, true, MatchOption, MatchResult};
ghost use Rattle.c0_tokens.specs.Tokens.{token_view, lexeme_view};
ghost use Rattle.c0_tokens.specs.declared.token.Mark.TheVariants.{True, False, Null};
ghost use Rattle.c0_parser.specs.Sorts.{mark, sort, among, a_name, a_number};
ghost use Rattle.c0_parser.specs.Value.{token, pair, literal as literal_of_token, operator as operator_of, across as across_of, token_span, suffixed};
ghost use Rattle.c0_parser.specs.Value.{joined, chained, primary_value, unary_value};
ghost use Rattle.c0_parser.specs.Grammar.{EXPR, the, maybe, unary, postfix, primary};
ghost use Rattle.c0_parser.specs.Machine.{heads};
ghost use Rattle.c0_parser.specs.Contract.{as_seen, PieceGives, GivesAny};
ghost use Rattle.c0_parser.specs.Views.{IsPart};
ghost use Rattle.c0_parser.specs.Levels.{rule_of, operand_of, marks_of, operation, chains, level_place};
ghost use Rattle.c0_parser.specs.Tails.{enclosed, part_value, GivesLiteral, IsFieldOf, IsNameOf, TakesAny, FIELD, PRIMARY_SUFFIX};
ghost use Rattle.c0_parser.specs.declared.reader.Halt.TheVariants.{Memory};
ghost use Rattle.c0_tree.specs.View.{expr_view};

use crate::reader::{Halt, expect, name, next, take};
use c0_tokens::{Lexeme, Mark, Token};
use c0_tree::{BinaryOp, Expr, Kind, Name, Span, UnaryOp};
use std::alloc::Global;

/// An expression, and the part of the source that it takes with its outer parentheses.
#[derive(Drop)]
pub struct Part {
    pub expr: Expr,
    pub span: Span,
}

/// The levels of binary operators, from the loosest to the tightest.
#[derive(Clone, Copy)]
pub enum Level {
    /// `||`
    Disjunction,
    /// `&&`
    Conjunction,
    /// `==` and `!=`, one at most
    Equality,
    /// `<`, `<=`, `>` and `>=`, one at most
    Relation,
    /// `+` and `-`
    Sum,
    /// `*`, `/` and `%`
    Product,
}

impl Level {
    // Its operators.
    fn marks(self) -> &'static [Mark]
        ensures { result.now ≡ marks_of self }
    {
        match self {
            Level::Disjunction => &[Mark::Or],
            Level::Conjunction => &[Mark::And],
            Level::Equality => &[Mark::Equal, Mark::NotEqual],
            Level::Relation => &[Mark::Less, Mark::AtMost, Mark::Greater, Mark::AtLeast],
            Level::Sum => &[Mark::Plus, Mark::Minus],
            Level::Product => &[Mark::Star, Mark::Slash, Mark::Percent],
        }
    }

    // Whether its operators follow one another.
    fn chains(self) -> bool
        ensures { result ≡ chains self }
    {
        !matches!(self, Level::Equality | Level::Relation)
    }

    // The level of its operands; none where they are unary.
    fn tighter(self) -> Option<Level>
        ensures { MatchOption result (operand_of self ≡ unary) (λ l. (operand_of self ≡ rule_of l) × (level_place l ≡ level_place self + 1)) }
    {
        match self {
            Level::Disjunction => Some(Level::Conjunction),
            Level::Conjunction => Some(Level::Equality),
            Level::Equality => Some(Level::Relation),
            Level::Relation => Some(Level::Sum),
            Level::Sum => Some(Level::Product),
            Level::Product => None,
        }
    }
}

// The next token, where it is one of these marks.
fn take_any<'a>(ts: &'a [Token<'a>], marks: &[Mark]) -> Option<(Token<'a>, &'a [Token<'a>])>
    ensures { TakesAny marks.now ts.now result }
{
    for mark in marks {
        if let Some(found) = take(ts, *mark) {
            return Some(found);
        }
    }
    None
}

// From the first byte of one part to the end of another.
fn across(from: Span, to: Span) -> Span
    ensures { result ≡ across_of from to }
{
    Span {
        start: from.start,
        end: to.end,
    }
}

// Where a token stands.
fn place(token: &Token<'_>) -> Span
    ensures { result ≡ token_span (token_view token.now) }
{
    Span {
        start: token.start,
        end: token.end,
    }
}

// The operator between two operands that a mark is.
fn binary_op(lexeme: &Lexeme<'_>) -> BinaryOp
    ensures { result ≡ operator_of (lexeme_view lexeme.now) }
{
    match lexeme {
        Lexeme::Fixed(Mark::Plus) => BinaryOp::Add,
        Lexeme::Fixed(Mark::Minus) => BinaryOp::Sub,
        Lexeme::Fixed(Mark::Star) => BinaryOp::Mul,
        Lexeme::Fixed(Mark::Slash) => BinaryOp::Div,
        Lexeme::Fixed(Mark::Percent) => BinaryOp::Rem,
        Lexeme::Fixed(Mark::Less) => BinaryOp::Lt,
        Lexeme::Fixed(Mark::AtMost) => BinaryOp::Le,
        Lexeme::Fixed(Mark::Greater) => BinaryOp::Gt,
        Lexeme::Fixed(Mark::AtLeast) => BinaryOp::Ge,
        Lexeme::Fixed(Mark::Equal) => BinaryOp::Eq,
        Lexeme::Fixed(Mark::NotEqual) => BinaryOp::Ne,
        Lexeme::Fixed(Mark::And) => BinaryOp::And,
        _ => BinaryOp::Or,
    }
}

// An operator and its operands.
fn join(alloc: Global, sign: &Token<'_>, left: Part, right: Part) -> Result<Part, Halt>
    ensures { MatchResult result (λ p. IsPart p (joined (part_value left) (pair (token (token_view sign.now)) (part_value right)))) (λ h. h ≡ Memory) }
{
    let span = across(left.span, right.span);
    let op = binary_op(&sign.lexeme);
    let left = Box::new(alloc, left.expr)?;
    let right = Box::new(alloc, right.expr)?;
    Ok(Part {
        expr: Expr::Binary(span, op, left, right),
        span,
    })
}

// An operator before its operand.
fn prefixed(alloc: Global, sign: &Token<'_>, part: Part) -> Result<Part, Halt>
    ensures { MatchResult result (λ p. IsPart p (unary_value (pair (token (token_view sign.now)) (part_value part)))) (λ h. h ≡ Memory) }
{
    let span = across(place(sign), part.span);
    let operand = Box::new(alloc, part.expr)?;
    let expr = match sign.lexeme {
        Lexeme::Fixed(Mark::Minus) => Expr::Unary(span, UnaryOp::Negate, operand),
        Lexeme::Fixed(Mark::Not) => Expr::Unary(span, UnaryOp::Not, operand),
        Lexeme::Fixed(Mark::Star) => Expr::Deref(span, operand),
        _ => Expr::AddressOf(span, operand),
    };
    Ok(Part { expr, span })
}

// An element of an array.
fn element(
    alloc: Global,
    left: Part,
    opening: &Token<'_>,
    inner: Part,
    closing: &Token<'_>,
) -> Result<Part, Halt>
    ensures { MatchResult result (λ p. IsPart p (suffixed (part_value left) (enclosed opening.now inner closing.now))) (λ h. h ≡ Memory) }
{
    let span = across(left.span, place(closing));
    let array = Box::new(alloc, left.expr)?;
    let index = Box::new(alloc, inner.expr)?;
    Ok(Part {
        expr: Expr::Index(span, array, index),
        span,
    })
}

// A field behind `.` or `->`.
fn field(alloc: Global, left: Part, sign: &Token<'_>, name: Name) -> Result<Part, Halt>
    ensures { MatchResult result (IsFieldOf left sign.now name) (λ h. h ≡ Memory) }
{
    let span = across(left.span, name.span);
    let owner = Box::new(alloc, left.expr)?;
    let expr = match sign.lexeme {
        Lexeme::Fixed(Mark::Dot) => Expr::Field(span, owner, name),
        _ => Expr::Arrow(span, owner, name),
    };
    Ok(Part { expr, span })
}

// An expression in parentheses.
fn in_parens(inner: Part, opening: &Token<'_>, closing: &Token<'_>) -> Part
    ensures { IsPart result (primary_value (pair (token (token_view opening.now)) (pair (part_value inner) (token (token_view closing.now))))) }
{
    Part {
        expr: inner.expr,
        span: across(place(opening), place(closing)),
    }
}

// A name as it is read.
fn name_of(alloc: Global, token: &Token<'_>, text: &[u8]) -> Result<Name, Halt>
    ensures { MatchResult result (IsNameOf token.now text.now) (λ h. h ≡ Memory) }
{
    let mut bytes = Vec::new(alloc);
    bytes.extend_from_slice(text)?;
    Ok(Name {
        bytes,
        span: place(token),
        kind: Kind::Unresolved,
        number: 0,
    })
}

// Whether a token is a name, a number, `true`, `false` or `null`.
fn is_literal(lexeme: &Lexeme<'_>) -> bool
    ensures { result ≡ among (a_name ∷ a_number ∷ mark True ∷ mark False ∷ mark Null ∷ []) (sort (lexeme_view lexeme.now)) }
{
    matches!(
        lexeme,
        Lexeme::Name(_) | Lexeme::Number(_) | Lexeme::Fixed(Mark::True | Mark::False | Mark::Null)
    )
}

// The name, number, `true`, `false` or `null` that a token is.
fn literal_of(alloc: Global, token: &Token<'_>) -> Result<Expr, Halt>
    ensures { MatchResult result (λ e. expr_view e ≡ literal_of_token (token_view token.now) (lexeme_view token.now.lexeme)) (λ h. h ≡ Memory) }
{
    let span = place(token);
    Ok(match token.lexeme {
        Lexeme::Name(text) => Expr::Var(name_of(alloc, token, text)?),
        Lexeme::Number(value) => Expr::Num(span, value),
        Lexeme::Fixed(Mark::True) => Expr::True(span),
        Lexeme::Fixed(Mark::False) => Expr::False(span),
        _ => Expr::Null(span),
    })
}

// The name, number, `true`, `false` or `null` that stands next.
fn literal<'a>(alloc: Global, ts: &'a [Token<'a>]) -> Result<(Part, &'a [Token<'a>]), Halt>
    ensures { GivesLiteral (λ p t. IsPart p (primary_value (token t))) ts.now result }
{
    let Some((token, rest)) = next(ts) else {
        return Err(Halt::Left(ts.len()));
    };
    if !is_literal(&token.lexeme) {
        return Err(Halt::Left(ts.len()));
    }
    let span = place(&token);
    let expr = literal_of(alloc, &token)?;
    Ok((Part { expr, span }, rest))
}

// Whether a field or an element of what was read follows.
fn begins_suffix<'a>(ts: &'a [Token<'a>]) -> bool
    ensures { result ≡ heads PRIMARY_SUFFIX (as_seen ts.now) }
{
    take_any(ts, &[Mark::Dot, Mark::Arrow, Mark::OpenBracket]).is_some()
}

// A literal, or an expression in parentheses.
#[cycle(exprs)]
fn primary<'a>(alloc: Global, ts: &'a [Token<'a>]) -> Result<(Part, &'a [Token<'a>]), Halt>
    ensures { PieceGives (the primary) IsPart ts.now result }
{
    match take(ts, Mark::OpenParen) {
        Some((opening, rest)) => {
            let (inner, rest) = binary(alloc, Level::Disjunction, rest)?;
            let (closing, rest) = expect(rest, Mark::CloseParen)?;
            Ok((in_parens(inner, &opening, &closing), rest))
        }
        None => literal(alloc, ts),
    }
}

// A field of what was read.
fn field_of<'a>(
    alloc: Global,
    left: Part,
    ts: &'a [Token<'a>],
) -> Result<(Part, &'a [Token<'a>]), Halt>
    ensures { PieceGives FIELD (λ p x. IsPart p (suffixed (part_value left) x)) ts.now result }
{
    match take_any(ts, &[Mark::Dot, Mark::Arrow]) {
        Some((sign, rest)) => {
            let (name, rest) = name(alloc, rest)?;
            Ok((field(alloc, left, &sign, name)?, rest))
        }
        None => Err(Halt::Left(ts.len())),
    }
}

// A field or an element of what was read.
#[cycle(exprs)]
fn suffix<'a>(
    alloc: Global,
    left: Part,
    ts: &'a [Token<'a>],
) -> Result<(Part, &'a [Token<'a>]), Halt>
    requires { heads PRIMARY_SUFFIX (as_seen ts.now) ≡ true }
    ensures { PieceGives PRIMARY_SUFFIX (λ p x. IsPart p (suffixed (part_value left) x)) ts.now result }
{
    match take(ts, Mark::OpenBracket) {
        Some((opening, rest)) => {
            let (inner, rest) = binary(alloc, Level::Disjunction, rest)?;
            let (closing, rest) = expect(rest, Mark::CloseBracket)?;
            Ok((element(alloc, left, &opening, inner, &closing)?, rest))
        }
        None => field_of(alloc, left, ts),
    }
}

// A primary, and all fields and elements behind it.
#[cycle(exprs)]
fn postfix<'a>(alloc: Global, ts: &'a [Token<'a>]) -> Result<(Part, &'a [Token<'a>]), Halt>
    ensures { PieceGives (the postfix) IsPart ts.now result }
{
    let (mut left, mut rest) = primary(alloc, ts)?;
    while begins_suffix(rest) {
        let (longer, after) = suffix(alloc, left, rest)?;
        left = longer;
        rest = after;
    }
    Ok((left, rest))
}

/// A unary operator and its operand, or a primary with what stands behind it.
#[cycle(exprs)]
pub fn unary<'a>(alloc: Global, ts: &'a [Token<'a>]) -> Result<(Part, &'a [Token<'a>]), Halt>
    ensures { PieceGives (the unary) IsPart ts.now result }
{
    match take_any(ts, &[Mark::Minus, Mark::Not, Mark::Star, Mark::Ampersand]) {
        Some((sign, rest)) => {
            let (operand, rest) = unary(alloc, rest)?;
            Ok((prefixed(alloc, &sign, operand)?, rest))
        }
        None => postfix(alloc, ts),
    }
}

// An operand of a level's operators.
#[cycle(exprs)]
fn operand<'a>(
    alloc: Global,
    level: Level,
    ts: &'a [Token<'a>],
) -> Result<(Part, &'a [Token<'a>]), Halt>
    ensures { PieceGives (the (operand_of level)) IsPart ts.now result }
{
    match level.tighter() {
        Some(tighter) => binary(alloc, tighter, ts),
        None => unary(alloc, ts),
    }
}

// The operator and right operand behind a left operand, if there is one.
#[cycle(exprs)]
fn comparison<'a>(
    alloc: Global,
    level: Level,
    left: Part,
    ts: &'a [Token<'a>],
) -> Result<(Part, &'a [Token<'a>]), Halt>
    ensures { GivesAny (maybe (operation level)) (λ p v. IsPart p (chained (part_value left) v)) ts.now result }
{
    let Some((sign, after_sign)) = take_any(ts, level.marks()) else {
        return Ok((left, ts));
    };
    let (right, rest) = operand(alloc, level, after_sign)?;
    Ok((join(alloc, &sign, left, right)?, rest))
}

// The operators of a level and their operands.
#[cycle(exprs)]
fn binary<'a>(
    alloc: Global,
    level: Level,
    ts: &'a [Token<'a>],
) -> Result<(Part, &'a [Token<'a>]), Halt>
    ensures { PieceGives (the (rule_of level)) IsPart ts.now result }
{
    let (mut left, mut rest) = operand(alloc, level, ts)?;
    if !level.chains() {
        return comparison(alloc, level, left, rest);
    }
    while let Some((sign, after_sign)) = take_any(rest, level.marks()) {
        let (right, after) = operand(alloc, level, after_sign)?;
        left = join(alloc, &sign, left, right)?;
        rest = after;
    }
    Ok((left, rest))
}

/// An expression.
pub fn expression<'a>(alloc: Global, ts: &'a [Token<'a>]) -> Result<(Part, &'a [Token<'a>]), Halt>
    ensures { PieceGives EXPR IsPart ts.now result }
{
    binary(alloc, Level::Disjunction, ts)
}
