// Structs, globals and functions.

ghost use Rattle.std.specs.Prelude.{[]};
ghost use Rattle.c0_tokens.specs.Tokens.{token_view};
ghost use Rattle.c0_parser.specs.Sorts.{an_asm_text};
ghost use Rattle.c0_tree.specs.View.{name_view};
ghost use Rattle.c0_parser.specs.Grammar.{the, one_of, ◌or◌, code, body, FIELDS, FUNCTION};
ghost use Rattle.c0_parser.specs.Factored.{FACTORED, AFTER_DECL, DEFINED};
ghost use Rattle.c0_parser.specs.Contract.{PieceGives};
ghost use Rattle.c0_parser.specs.Views.{IsAsm, IsBody, IsItem, IsItemOfDecl, IsDefined, IsStruct, IsItemAfterName};

use crate::reader::{Halt, expect, name, take, take_asm};
use crate::statements::code;
use crate::types::{Typed, fields, parameters, struct_at, suffixes, take_basic};
use c0_tokens::{Mark, Token};
use c0_tree::{AsmText, Body, Decl, Function, Name, Span, StructDef};
use std::alloc::Global;

/// A struct, a global or a function.
#[derive(Drop)]
pub enum Item {
    /// A struct with its fields.
    AStruct(StructDef),
    /// A global's type and name.
    AGlobal(Decl),
    /// A function with its body.
    AFunction(Function),
}

// The text of an asm body.
fn asm_body<'a>(alloc: Global, ts: &'a [Token<'a>]) -> Result<(Body, &'a [Token<'a>]), Halt>
    ensures { PieceGives (one_of an_asm_text []) IsAsm ts.now result }
{
    match take_asm(ts) {
        Some((t, text, rest)) => {
            let bytes = Vec::from_slice(alloc, text)?;
            let span = Span {
                start: t.start,
                end: t.end,
            };
            let asm = AsmText {
                bytes,
                span,
                words: Vec::new(alloc),
            };
            Ok((Body::Asm(asm), rest))
        }
        None => Err(Halt::Left(ts.len())),
    }
}

/// What a function does.
pub fn body<'a>(alloc: Global, ts: &'a [Token<'a>]) -> Result<(Body, &'a [Token<'a>]), Halt>
    ensures { PieceGives (the body) IsBody ts.now result }
{
    if let Some((_, _)) = take(ts, Mark::OpenBrace) {
        return code(alloc, ts);
    }
    let (_, rest) = expect(ts, Mark::Asm)?;
    asm_body(alloc, rest)
}

// A function, from its `(` on.
fn function<'a>(
    alloc: Global,
    decl: Decl,
    ts: &'a [Token<'a>],
) -> Result<(Item, &'a [Token<'a>]), Halt>
    ensures { PieceGives FUNCTION (IsItemOfDecl decl) ts.now result }
{
    let (_, rest) = expect(ts, Mark::OpenParen)?;
    let (params, rest) = parameters(alloc, rest)?;
    let (_, rest) = expect(rest, Mark::CloseParen)?;
    let (body, rest) = body(alloc, rest)?;
    let function = Function {
        answer: decl.ty,
        answer_span: decl.ty_span,
        name: decl.name,
        params,
        body,
    };
    Ok((Item::AFunction(function), rest))
}

// The global or function of this declaration, from what stands after it.
fn item_of_decl<'a>(
    alloc: Global,
    decl: Decl,
    ts: &'a [Token<'a>],
) -> Result<(Item, &'a [Token<'a>]), Halt>
    ensures { PieceGives AFTER_DECL (IsItemOfDecl decl) ts.now result }
{
    match take(ts, Mark::Semicolon) {
        Some((_, rest)) => Ok((Item::AGlobal(decl), rest)),
        None => function(alloc, decl, ts),
    }
}

// A global or a function, behind the first word or words of its type.
fn defined<'a>(
    alloc: Global,
    base: Typed,
    ts: &'a [Token<'a>],
) -> Result<(Item, &'a [Token<'a>]), Halt>
    ensures { PieceGives DEFINED (IsDefined base) ts.now result }
{
    let (typed, rest) = suffixes(alloc, base, ts)?;
    let (name, rest) = name(alloc, rest)?;
    let decl = Decl {
        ty: typed.ty,
        ty_span: typed.span,
        name,
    };
    item_of_decl(alloc, decl, rest)
}

// A struct, from its `{` on.
fn structure<'a>(
    alloc: Global,
    name: Name,
    ts: &'a [Token<'a>],
) -> Result<(Item, &'a [Token<'a>]), Halt>
    ensures { PieceGives FIELDS (IsStruct name) ts.now result }
{
    let (_, rest) = expect(ts, Mark::OpenBrace)?;
    let (fields, rest) = fields(alloc, rest)?;
    let (_, rest) = expect(rest, Mark::CloseBrace)?;
    let (_, rest) = expect(rest, Mark::Semicolon)?;
    Ok((Item::AStruct(StructDef { name, fields }), rest))
}

// A struct, or a global or function of a struct type, behind `struct` and a name.
fn item_after_name<'a>(
    alloc: Global,
    word: &Token<'_>,
    name: Name,
    ts: &'a [Token<'a>],
) -> Result<(Item, &'a [Token<'a>]), Halt>
    ensures { PieceGives (FIELDS or DEFINED) (IsItemAfterName (token_view word.now) (name_view name)) ts.now result }
{
    match take(ts, Mark::OpenBrace) {
        Some((_, _)) => structure(alloc, name, ts),
        None => defined(alloc, struct_at(word, name), ts),
    }
}

/// A struct, a global or a function.
pub fn next_item<'a>(alloc: Global, ts: &'a [Token<'a>]) -> Result<(Item, &'a [Token<'a>]), Halt>
    ensures { PieceGives FACTORED IsItem ts.now result }
{
    if let Some((word, rest)) = take(ts, Mark::Struct) {
        let (name, rest) = name(alloc, rest)?;
        return item_after_name(alloc, &word, name, rest);
    }
    match take_basic(ts) {
        Some((base, rest)) => defined(alloc, base, rest),
        None => Err(Halt::Left(ts.len())),
    }
}
