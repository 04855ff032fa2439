// A whole source.

ghost use Rattle.std.specs.Prelude.{ℕ, ◌≡◌, ◌<◌, ◌≤◌, ◌++◌, ◌∷◌, [], List, length, map, true, Err, IfOk, IfErr, MatchResult};
ghost use Rattle.c0_tokens.specs.Tokens.{token_view};
ghost use Rattle.c0_tokens.specs.declared.token.Token.{Token as OneToken};
ghost use Rattle.c0_tree.specs.Tree.{CUnit};
ghost use Rattle.c0_tree.specs.View.{unit_view};
ghost use Rattle.c0_tree.specs.Plain.{is_plain};
ghost use Rattle.c0_parser.specs.Sorts.{the_end};
ghost use Rattle.c0_parser.specs.Value.{none};
ghost use Rattle.c0_parser.specs.Machine.{heads};
ghost use Rattle.c0_parser.specs.Grammar.{many, one_of};
ghost use Rattle.c0_parser.specs.Factored.{FACTORED, SOURCE};
ghost use Rattle.c0_parser.specs.Contract.{as_seen, GivesAny};
ghost use Rattle.c0_parser.specs.ToEnd.{IsAdded, AreItems, GivesToEnd};
ghost use Rattle.c0_parser.specs.Faults.{ReadsAs, FaultIs, fault_at};
ghost use Rattle.c0_parser.specs.declared.reader.Halt.TheVariants.{Memory as Full};
ghost use Rattle.c0_parser.specs.declared.fault.ReadFault.TheVariants.{SourceTooLong, Memory};

use crate::fault::{ReadFault, fault_of};
use crate::items::{Item, next_item};
use crate::reader::{Halt, next, read_so_far};
use crate::types::type_ahead;
use c0_tokens::{
    Lexeme, MAX_SOURCE, Token, tokens, tokens_are_few_and_small, tokens_stand_in_order,
};
use c0_tree::{Decl, Function, StructDef, Unit};
use std::alloc::Global;

/// The structs, the globals and the functions that were read, each in the order of the source.
#[derive(Drop)]
pub struct Items {
    pub structs: Vec<StructDef>,
    pub globals: Vec<Decl>,
    pub functions: Vec<Function>,
}

// No items.
fn no_items(alloc: Global) -> Items
    ensures { AreItems result none }
{
    Items {
        structs: Vec::new(alloc),
        globals: Vec::new(alloc),
        functions: Vec::new(alloc),
    }
}

// The items with one more.
fn added(items: Items, item: Item) -> Result<Items, Halt>
    ensures { MatchResult result (IsAdded items item) (λ h. h ≡ Full) }
{
    let mut all = items;
    match item {
        Item::AStruct(definition) => all.structs.push(definition)?,
        Item::AGlobal(decl) => all.globals.push(decl)?,
        Item::AFunction(function) => all.functions.push(function)?,
    }
    Ok(all)
}

// Structs, globals and functions, as many as there are.
fn all_items<'a>(alloc: Global, ts: &'a [Token<'a>]) -> Result<(Items, &'a [Token<'a>]), Halt>
    ensures { GivesAny (many FACTORED) AreItems ts.now result }
{
    let (mut all, mut rest) = read_so_far(no_items(alloc), ts);
    while let Some(here) = type_ahead(rest) {
        let (item, after) = next_item(alloc, here)?;
        all = added(all, item)?;
        rest = after;
    }
    Ok((all, rest))
}

// Whether the end of the source stands next.
fn is_end<'a>(ts: &'a [Token<'a>]) -> bool
    ensures { result ≡ heads (one_of the_end []) (as_seen ts.now) }
{
    match next(ts) {
        Some((t, _)) => matches!(t.lexeme, Lexeme::End),
        None => false,
    }
}

// All items, up to the end of the source.
fn items_to_end<'a>(alloc: Global, ts: &'a [Token<'a>]) -> Result<Items, Halt>
    ensures { GivesToEnd ts.now result }
{
    let (items, rest) = all_items(alloc, ts)?;
    if is_end(rest) {
        Ok(items)
    } else {
        Err(Halt::Left(rest.len()))
    }
}

// The fault of the token that has so many tokens from it on.
fn fault_from_end(ts: &[Token<'_>], left: usize) -> ReadFault
    requires { left ≤ length ts.now }
    ensures { (before after : List OneToken) (t : OneToken) → ts.now ≡ before ++ t ∷ after → length (t ∷ after) ≡ left → result ≡ fault_at (token_view t) }
{
    match ts.get(ts.len() - left) {
        Some(t) => fault_of(t),
        None => ReadFault::Unexpected { at: 0 },
    }
}

/// The tree of a source: of what the grammar derives from its tokens. A source of more than 1,048,576 bytes is refused. Any other source
/// that has no tree is refused by its first token that cannot be where it stands. Otherwise the one error is want of memory. The numbers in
/// the tree's expressions are at most 2147483647, and each of its lists has fewer than 2^32 parts.
pub fn parse(alloc: Global, source: &[u8]) -> Result<Unit, ReadFault>
    ensures too_long { 1048576 < length source.now → result ≡ Err SourceTooLong }
    ensures found { IfOk result (λ u. ReadsAs source.now (unit_view u)) }
    ensures plain { IfOk result (λ u. is_plain (unit_view u) ≡ true) }
    ensures only { (u : CUnit) → length source.now ≤ 1048576 → ReadsAs source.now u → MatchResult result (λ x. unit_view x ≡ u) (λ f. f ≡ Memory) }
    ensures fault { IfErr result (λ f. FaultIs source.now f) }
{
    if source.len() > MAX_SOURCE {
        return Err(ReadFault::SourceTooLong);
    }
    let tokens = tokens(alloc, source)?;
    tokens_stand_in_order();
    tokens_are_few_and_small();
    match items_to_end(alloc, &tokens) {
        Ok(items) => Ok(Unit {
            length: source.len() as u32,
            structs: items.structs,
            globals: items.globals,
            functions: items.functions,
        }),
        Err(Halt::Memory) => Err(ReadFault::Memory),
        Err(Halt::Left(left)) => Err(fault_from_end(&tokens, left)),
    }
}
