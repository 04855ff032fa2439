// Types and declarations.

ghost use Rattle.std.specs.Prelude.{◌≡◌, true, false, MatchOption, MatchResult};
ghost use Rattle.c0_tree.specs.View.{name_view};
ghost use Rattle.c0_tree.specs.Tree.{int, bool, named};
ghost use Rattle.c0_tokens.specs.Tokens.{token_view};
ghost use Rattle.c0_parser.specs.declared.reader.Halt.TheVariants.{Memory};
ghost use Rattle.c0_parser.specs.Value.{type as type_at, token_span, across};
ghost use Rattle.c0_tokens.specs.declared.token.Mark.TheVariants.{Comma};
ghost use Rattle.c0_parser.specs.Grammar.{the, type, decl, sign, ◌▸◌, many, maybe, LINE, BASIC, BASE, SUFFIX, SUFFIXES};
ghost use Rattle.c0_parser.specs.Contract.{as_seen, PieceGives, GivesAny, PieceReading};
ghost use Rattle.c0_parser.specs.Machine.{heads};
ghost use Rattle.c0_parser.specs.Views.{typed, IsBase, IsBasic, IsListed, AreMoreLines, IsExtended, lengthened, IsSuffix, IsTypedValue, AreSuffixes, IsDecl};
ghost use Rattle.c0_parser.specs.Views.{AreLines, AreFields, AreParams};

use crate::reader::{Halt, expect, name, next, number_here, read_so_far, take};
use c0_tokens::{Lexeme, Mark, Token};
use c0_tree::{CType, Decl, Name, Span};
use std::alloc::Global;

/// A type, and where it stands.
#[derive(Drop)]
pub struct Typed {
    pub ty: CType,
    pub span: Span,
}

/// What makes a pointer to a type, or an array of it.
#[derive(Drop)]
pub struct Suffix {
    /// How many elements the array has.
    pub length: Option<u32>,
    /// The byte after its last one.
    pub end: u32,
}

// The tokens, where a suffix begins.
fn suffix_ahead<'a>(ts: &'a [Token<'a>]) -> Option<&'a [Token<'a>]>
    ensures { MatchOption result (heads SUFFIX (as_seen ts.now) ≡ false) (λ p. (p.now ≡ ts.now) × (heads SUFFIX (as_seen ts.now) ≡ true)) }
{
    let (t, _) = next(ts)?;
    match t.lexeme {
        Lexeme::Fixed(mark) if mark == Mark::Star || mark == Mark::OpenBracket => Some(ts),
        _ => None,
    }
}

// `*` or `[ NUMBER ]`.
fn one_suffix<'a>(ts: &'a [Token<'a>]) -> Result<(Suffix, &'a [Token<'a>]), Halt>
    ensures { PieceGives SUFFIX IsSuffix ts.now result }
{
    if let Some((star, rest)) = take(ts, Mark::Star) {
        let suffix = Suffix {
            length: None,
            end: star.end,
        };
        return Ok((suffix, rest));
    }
    let (_, rest) = expect(ts, Mark::OpenBracket)?;
    let (length, rest) = number_here(rest)?;
    let (closing, rest) = expect(rest, Mark::CloseBracket)?;
    let suffix = Suffix {
        length: Some(length),
        end: closing.end,
    };
    Ok((suffix, rest))
}

// The type with a suffix behind it.
fn with_suffix(alloc: Global, base: Typed, suffix: Suffix) -> Result<Typed, Halt>
    ensures { MatchResult result (λ t. typed t ≡ lengthened base suffix) (λ h. h ≡ Memory) }
{
    let part = Box::new(alloc, base.ty)?;
    let span = Span {
        start: base.span.start,
        end: suffix.end,
    };
    let ty = match suffix.length {
        Some(length) => CType::Array(part, length),
        None => CType::Pointer(part),
    };
    Ok(Typed { ty, span })
}

// A type with the suffix that stands next.
fn extended<'a>(
    alloc: Global,
    base: Typed,
    ts: &'a [Token<'a>],
) -> Result<(Typed, &'a [Token<'a>]), Halt>
    ensures { PieceGives SUFFIX (IsExtended base) ts.now result }
{
    let (suffix, rest) = one_suffix(ts)?;
    Ok((with_suffix(alloc, base, suffix)?, rest))
}

/// `*` and `[ NUMBER ]`, as many as there are, behind a type.
pub fn suffixes<'a>(
    alloc: Global,
    base: Typed,
    ts: &'a [Token<'a>],
) -> Result<(Typed, &'a [Token<'a>]), Halt>
    ensures { GivesAny SUFFIXES (AreSuffixes base) ts.now result }
{
    let (mut ty, mut rest) = read_so_far(base, ts);
    while let Some(here) = suffix_ahead(rest) {
        let (longer, after) = extended(alloc, ty, here)?;
        ty = longer;
        rest = after;
    }
    Ok((ty, rest))
}

// `int`.
fn int_at(t: &Token<'_>) -> Typed
    ensures { typed result ≡ type_at (token_span (token_view t.now)) int }
{
    let span = Span {
        start: t.start,
        end: t.end,
    };
    Typed {
        ty: CType::Int,
        span,
    }
}

// `bool`.
fn bool_at(t: &Token<'_>) -> Typed
    ensures { typed result ≡ type_at (token_span (token_view t.now)) bool }
{
    let span = Span {
        start: t.start,
        end: t.end,
    };
    Typed {
        ty: CType::Bool,
        span,
    }
}

/// The struct of this name, behind the word `struct`.
pub fn struct_at(t: &Token<'_>, name: Name) -> Typed
    ensures { typed result ≡ type_at (across (token_span (token_view t.now)) name.span) (named (name_view name)) }
{
    let span = Span {
        start: t.start,
        end: name.span.end,
    };
    Typed {
        ty: CType::Named(name),
        span,
    }
}

/// `int` or `bool`, where one stands next.
pub fn take_basic<'a>(ts: &'a [Token<'a>]) -> Option<(Typed, &'a [Token<'a>])>
    ensures { MatchOption result (heads BASIC (as_seen ts.now) ≡ false) (λ p. (heads BASIC (as_seen ts.now) ≡ true) × PieceReading BASIC IsBasic ts.now p) }
{
    if let Some((t, rest)) = take(ts, Mark::Int) {
        return Some((int_at(&t), rest));
    }
    let (t, rest) = take(ts, Mark::Bool)?;
    Some((bool_at(&t), rest))
}

// The first word or words of a type.
fn base<'a>(alloc: Global, ts: &'a [Token<'a>]) -> Result<(Typed, &'a [Token<'a>]), Halt>
    ensures { PieceGives BASE IsBase ts.now result }
{
    if let Some((basic, rest)) = take_basic(ts) {
        return Ok((basic, rest));
    }
    let (t, rest) = expect(ts, Mark::Struct)?;
    let (name, rest) = name(alloc, rest)?;
    Ok((struct_at(&t, name), rest))
}

/// A type.
pub fn type_of<'a>(alloc: Global, ts: &'a [Token<'a>]) -> Result<(Typed, &'a [Token<'a>]), Halt>
    ensures { PieceGives (the type) IsTypedValue ts.now result }
{
    let (base, rest) = base(alloc, ts)?;
    suffixes(alloc, base, rest)
}

/// A type and a name.
pub fn declaration<'a>(alloc: Global, ts: &'a [Token<'a>]) -> Result<(Decl, &'a [Token<'a>]), Halt>
    ensures { PieceGives (the decl) IsDecl ts.now result }
{
    let (typed, rest) = type_of(alloc, ts)?;
    let (name, rest) = name(alloc, rest)?;
    let decl = Decl {
        ty: typed.ty,
        ty_span: typed.span,
        name,
    };
    Ok((decl, rest))
}

// A declaration with a `;` behind it.
fn line<'a>(alloc: Global, ts: &'a [Token<'a>]) -> Result<(Decl, &'a [Token<'a>]), Halt>
    ensures { PieceGives LINE IsListed ts.now result }
{
    let (decl, rest) = declaration(alloc, ts)?;
    let (_, rest) = expect(rest, Mark::Semicolon)?;
    Ok((decl, rest))
}

/// The tokens, where a declaration begins.
pub fn type_ahead<'a>(ts: &'a [Token<'a>]) -> Option<&'a [Token<'a>]>
    ensures { MatchOption result (heads (the decl) (as_seen ts.now) ≡ false) (λ p. (p.now ≡ ts.now) × (heads (the decl) (as_seen ts.now) ≡ true)) }
{
    let (t, _) = next(ts)?;
    match t.lexeme {
        Lexeme::Fixed(mark) if mark == Mark::Int || mark == Mark::Bool || mark == Mark::Struct =>
            Some(ts),
        _ => None,
    }
}

// The declarations that were read, and more of them, each with a `;` behind it.
fn more_lines<'a>(
    alloc: Global,
    first: Vec<Decl>,
    ts: &'a [Token<'a>],
) -> Result<(Vec<Decl>, &'a [Token<'a>]), Halt>
    ensures { GivesAny (many LINE) (AreMoreLines first) ts.now result }
{
    let (mut list, mut rest) = read_so_far(first, ts);
    while let Some(here) = type_ahead(rest) {
        let (decl, after) = line(alloc, here)?;
        list.push(decl)?;
        rest = after;
    }
    Ok((list, rest))
}

/// Declarations, each with a `;` behind it: the locals of a function.
pub fn lines<'a>(alloc: Global, ts: &'a [Token<'a>]) -> Result<(Vec<Decl>, &'a [Token<'a>]), Halt>
    ensures { GivesAny (many LINE) AreLines ts.now result }
{
    more_lines(alloc, Vec::new(alloc), ts)
}

/// At least one declaration, each with a `;` behind it: the fields of a struct.
pub fn fields<'a>(alloc: Global, ts: &'a [Token<'a>]) -> Result<(Vec<Decl>, &'a [Token<'a>]), Halt>
    ensures { PieceGives (LINE ▸ many LINE) AreFields ts.now result }
{
    let (first, rest) = line(alloc, ts)?;
    let mut list = Vec::new(alloc);
    list.push(first)?;
    more_lines(alloc, list, rest)
}

// The parameters that were read, and more of them, each with a comma before it.
fn more_parameters<'a>(
    alloc: Global,
    first: Vec<Decl>,
    ts: &'a [Token<'a>],
) -> Result<(Vec<Decl>, &'a [Token<'a>]), Halt>
    ensures { GivesAny (many (sign Comma ▸ the decl)) (AreMoreLines first) ts.now result }
{
    let (mut list, mut rest) = read_so_far(first, ts);
    while let Some((_, after_comma)) = take(rest, Mark::Comma) {
        let (decl, after) = declaration(alloc, after_comma)?;
        list.push(decl)?;
        rest = after;
    }
    Ok((list, rest))
}

/// Declarations with commas between them: the parameters of a function.
pub fn parameters<'a>(
    alloc: Global,
    ts: &'a [Token<'a>],
) -> Result<(Vec<Decl>, &'a [Token<'a>]), Halt>
    ensures { GivesAny (maybe (the decl ▸ many (sign Comma ▸ the decl))) AreParams ts.now result }
{
    match type_ahead(ts) {
        Some(here) => {
            let (first, rest) = declaration(alloc, here)?;
            let mut list = Vec::new(alloc);
            list.push(first)?;
            more_parameters(alloc, list, rest)
        }
        None => Ok((Vec::new(alloc), ts)),
    }
}
