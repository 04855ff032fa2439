// The sizes of structs.

ghost use Rattle.std.specs.Prelude.{◌≡◌, ◌<◌, ◌^◌, ℕ, List, IfOk, length, map};
ghost use Rattle.c0_meaning.specs.Env.{shape_of};
ghost use Rattle.c0_meaning.specs.Words.{holds};
ghost use Rattle.c0_name_check.specs.Names.{look, number_named};
ghost use Rattle.c0_meaning.specs.Sizes as table;
ghost use Rattle.c0_name_check.specs.Structs.{KnowsStructs, listed_words};
ghost use Rattle.c0_struct_sizes.specs.Parts.{IsOrderOver, TellsFirst, holding_themselves, listed_turning, turning_listed, words_listed};
ghost use Rattle.c0_tree.specs.View.{struct_view};

use crate::fields::{parts_of, words_in_order};
use crate::walk::{Order, order_of};
use c0_meaning::laws::{holding_is_as_tested, words_are_those_of_the_parts};
use c0_name_check::names::Names;
use c0_tree::StructDef;
use std::alloc::{AllocError, Global};

/// What is known of each struct of a unit, by its number.
#[derive(Drop)]
pub struct StructSizes {
    /// The words of the first struct of each name, up to 1,048,577: a struct that holds itself other than through a pointer has none.
    pub words: Vec<u32>,
    /// Whether the struct of this name holds itself other than through a pointer.
    pub holds_itself: Vec<bool>,
}

/// The words of each struct, and whether it holds itself. The one error is want of memory.
pub fn struct_sizes(
    alloc: Global,
    names: &Names,
    structs: &[StructDef],
) -> Result<StructSizes, AllocError>
    requires told { (text : List ℕ) → look names.now text ≡ number_named (λ s. s.text) text 0 (map shape_of (map struct_view structs.now)) }
    requires few { length structs.now < 2 ^ 32 }
    ensures words { IfOk result (λ s. KnowsStructs names.now s.words.items (map shape_of (map struct_view structs.now))) }
    ensures table { IfOk result (λ s. s.words.items ≡ table.struct_sizes (map shape_of (map struct_view structs.now))) }
    ensures held { IfOk result (λ s. s.holds_itself.items ≡ holding_themselves (map struct_view structs.now)) }
{
    holding_is_as_tested();
    words_are_those_of_the_parts();
    let order = parts_first(alloc, names, structs)?;
    let words = words_in_order(alloc, names, structs, &order.nodes, &order.turning)?;
    sizes_of(alloc, names, structs, &words, &order.turning)
}

// An order of the structs in which parts come before wholes, and which of them hold themselves.
fn parts_first(alloc: Global, names: &Names, structs: &[StructDef]) -> Result<Order, AllocError>
    requires told { TellsFirst (look names.now) (map struct_view structs.now) }
    requires few { length structs.now < 2 ^ 32 }
    ensures { IfOk result (λ o. IsOrderOver (look names.now) (map struct_view structs.now) o.nodes.items o.turning.items) }
{
    let graph = parts_of(alloc, names, structs)?;
    order_of(alloc, &graph)
}

// The number of the first struct of the name of a struct.
fn first_of_name(names: &Names, def: &StructDef) -> Option<u32>
    ensures { result ≡ look names.now (struct_view def.now).name.text }
{
    names.get(def.name.bytes.as_slice()).copied()
}

// The words of the struct of this number, if there is one.
fn words_at(words: &[u32], number: Option<u32>) -> u32
    ensures { result ≡ listed_words words.now number }
{
    match number {
        None => 0,
        Some(place) => words.get(place as usize).copied().unwrap_or(0),
    }
}

// Whether the struct of this number, if there is one, leads to itself.
fn turns_at(turning: &[bool], number: Option<u32>) -> bool
    ensures { result ≡ listed_turning turning.now number }
{
    match number {
        None => false,
        Some(place) => turning.get(place as usize).copied().unwrap_or(false),
    }
}

// What was found of the first struct of the name of each.
fn sizes_of(
    alloc: Global,
    names: &Names,
    structs: &[StructDef],
    found: &[u32],
    turning: &[bool],
) -> Result<StructSizes, AllocError>
    ensures words { IfOk result (λ s. s.words.items ≡ words_listed found.now (look names.now) (map struct_view structs.now)) }
    ensures held { IfOk result (λ s. s.holds_itself.items ≡ turning_listed turning.now (look names.now) (map struct_view structs.now)) }
{
    let mut words = Vec::new(alloc);
    let mut holds_itself = Vec::new(alloc);
    for def in structs {
        let first = first_of_name(names, def);
        words.push(words_at(found, first))?;
        holds_itself.push(turns_at(turning, first))?;
    }
    Ok(StructSizes {
        words,
        holds_itself,
    })
}
