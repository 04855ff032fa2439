// The fields of a struct: which structs they are made of, and how many words they have.

ghost use Rattle.std.specs.Prelude.{◌≡◌, ◌<◌, ◌++◌, List, OnOk, IfOk, length, map, min};
ghost use Rattle.std.specs.Option.{option_to_list};
ghost use Rattle.c0_name_check.specs.Names.{look};
ghost use Rattle.c0_meaning.specs.Sizes as table;
ghost use Rattle.c0_struct_sizes.specs.Parts as parts;
ghost use Rattle.c0_struct_sizes.specs.Parts.{AreWordsAmong, IsOrderOver, TellsFirst};
ghost use Rattle.c0_tree.specs.View.{decl_view, struct_view, type_view};

use c0_meaning::laws::words_are_those_of_the_parts;
use c0_meaning::limits::WORDS_CAP;
use c0_name_check::names::Names;
use c0_name_check::types::words_by;
use c0_tree::{CType, Decl, StructDef};
use std::alloc::{AllocError, Global};

// The number of the struct that a type is, or is an array of.
fn struct_number(names: &Names, ty: &CType) -> Option<u32>
    ensures { result ≡ parts.struct_number (look names.now) (type_view ty.now) }
{
    match ty {
        CType::Int => None,
        CType::Bool => None,
        CType::Pointer(_) => None,
        CType::Named(name) => names.get(name.bytes.as_slice()).copied(),
        CType::Array(element, _) => struct_number(names, element),
    }
}

// Pushes the number of the struct that a type is made of, if it is made of one.
fn push_part(names: &Names, ty: &CType, numbers: &mut Vec<u32>) -> Result<(), AllocError>
    ensures { OnOk result (numbers.new.items ≡ numbers.old.items ++ option_to_list (parts.struct_number (look names.now) (type_view ty.now))) }
{
    match struct_number(names, ty) {
        None => {}
        Some(number) => numbers.push(number)?,
    }
    Ok(())
}

// Pushes the numbers of the structs that fields are made of, in their order.
fn push_parts(names: &Names, fields: &[Decl], numbers: &mut Vec<u32>) -> Result<(), AllocError>
    ensures { OnOk result (numbers.new.items ≡ numbers.old.items ++ parts.parts (look names.now) (map decl_view fields.now)) }
{
    for field in fields {
        push_part(names, &field.ty, numbers)?;
    }
    Ok(())
}

// The structs that each struct is made of.
pub(crate) fn parts_of(
    alloc: Global,
    names: &Names,
    structs: &[StructDef],
) -> Result<Vec<Vec<u32>>, AllocError>
    ensures { IfOk result (λ g. map (λ x. x.items) g.items ≡ map (λ s. parts.parts (look names.now) s.fields) (map struct_view structs.now)) }
{
    let mut graph = Vec::new(alloc);
    for def in structs {
        let mut numbers = Vec::new(alloc);
        push_parts(names, def.fields.as_slice(), &mut numbers)?;
        graph.push(numbers)?;
    }
    Ok(graph)
}

// The fields of a struct.
fn fields_of(structs: &[StructDef], node: u32) -> &[Decl]
    requires { node < length structs.now }
    ensures { map decl_view result.now ≡ parts.fields_at (map struct_view structs.now) node }
{
    structs[node as usize].fields.as_slice()
}

// The words of fields one after another, up to 1,048,577, where those of each struct are given.
fn fields_words(names: &Names, sizes: &[u32], fields: &[Decl]) -> u32
    ensures { result ≡ min (parts.all_capped (look names.now) sizes.now (map decl_view fields.now)) table.WORDS_CAP }
{
    let mut words = 0;
    for field in fields {
        words = words_by(names, sizes, &field.ty)
            .saturating_add(words)
            .min(WORDS_CAP);
    }
    words
}

// The words of a struct by those of its parts: none if it holds itself.
fn struct_words(
    names: &Names,
    structs: &[StructDef],
    turning: &[bool],
    sizes: &[u32],
    node: u32,
) -> u32
    requires { node < length structs.now }
    ensures { result ≡ parts.words_by_parts (look names.now) (map struct_view structs.now) turning.now sizes.now node }
{
    if turning.get(node as usize).copied().unwrap_or(false) {
        return 0;
    }
    fields_words(names, sizes, fields_of(structs, node))
}

// The words of all structs, where parts come before wholes in the order.
pub(crate) fn words_in_order(
    alloc: Global,
    names: &Names,
    structs: &[StructDef],
    nodes: &[u32],
    turning: &[bool],
) -> Result<Vec<u32>, AllocError>
    requires told { TellsFirst (look names.now) (map struct_view structs.now) }
    requires order { IsOrderOver (look names.now) (map struct_view structs.now) nodes.now turning.now }
    ensures { IfOk result (λ sizes. AreWordsAmong (look names.now) (map struct_view structs.now) nodes.now sizes.items) }
{
    words_are_those_of_the_parts();
    let mut sizes = Vec::new(alloc);
    sizes.resize(structs.len(), 0)?;
    for node in nodes {
        sizes[*node as usize] = struct_words(names, structs, turning, &sizes, *node);
    }
    Ok(sizes)
}
