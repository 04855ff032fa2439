// The check of types: their names are resolved, and their faults are met.

ghost use Rattle.std.specs.Prelude.{◌≡◌, List, min};
ghost use Rattle.c0_meaning.specs.DeclaredTypes as spec;
ghost use Rattle.c0_meaning.specs.DeclaredTypes.{type_faults};
ghost use Rattle.c0_meaning.specs.Env.{Shape};
ghost use Rattle.c0_meaning.specs.Resolved.{resolved_type};
ghost use Rattle.c0_meaning.specs.Ty.{ty_of};
ghost use Rattle.c0_meaning.specs.Words.{words};
ghost use Rattle.c0_meaning.specs.Fault.{kept_all};
ghost use Rattle.c0_tree.specs.View.{name_view, type_view};
ghost use Rattle.c0_name_check.specs.Met.{Meets, met_view};
ghost use Rattle.c0_name_check.specs.Names.{look};
ghost use Rattle.c0_meaning.specs.Sizes as table;
ghost use Rattle.c0_name_check.specs.Structs as structs;

use crate::met::{Fault, Mistake, meet_at, meet_if};
use crate::names::Names;
use c0_meaning::limits::{MAX_TYPE_WORDS, WORDS_CAP};
use c0_tree::{CType, Kind, Name, Span};

// Gives a struct's name its number, or meets it as the name of no struct.
fn number_struct(names: &Names, name: &mut Name, least: &mut Option<Fault>)
    ensures met { met_view least.new ≡ kept_all (met_view least.old) (structs.unknown_name (look names.now name.old.bytes.items) name.old.span) }
    ensures named { name_view name.new ≡ structs.numbered_struct (name_view name.old) (look names.now name.old.bytes.items) }
{
    match names.get(name.bytes.as_slice()) {
        None => meet_at(least, Mistake::UnknownName, name.span),
        Some(number) => {
            name.kind = Kind::Struct;
            name.number = *number;
        }
    }
}

// Gives the structs' names in a type their numbers, and meets the names of no struct.
fn name_structs(names: &Names, ty: &mut CType, least: &mut Option<Fault>)
    ensures met { met_view least.new ≡ kept_all (met_view least.old) (structs.unknown_by (look names.now) (type_view ty.old)) }
    ensures named { type_view ty.new ≡ structs.numbered_type (look names.now) (type_view ty.old) }
{
    match ty {
        CType::Int => {}
        CType::Bool => {}
        CType::Pointer(target) => name_structs(names, target, least),
        CType::Named(name) => number_struct(names, name, least),
        CType::Array(element, _) => name_structs(names, element, least),
    }
}

// Whether a length 0 is written in a type.
fn has_empty_array(ty: &CType) -> bool
    ensures { result ≡ spec.has_empty_array (type_view ty.now) }
{
    match ty {
        CType::Int => false,
        CType::Bool => false,
        CType::Pointer(target) => has_empty_array(target),
        CType::Named(_) => false,
        CType::Array(element, size) => *size == 0 || has_empty_array(element),
    }
}

/// The words of a type, up to 1,048,577, where those of each struct are given.
pub fn words_by(names: &Names, sizes: &[u32], ty: &CType) -> u32
    ensures { result ≡ structs.capped_words (look names.now) sizes.now (type_view ty.now) }
{
    match ty {
        CType::Int => 1,
        CType::Bool => 1,
        CType::Pointer(_) => 1,
        CType::Named(name) => struct_words(names, sizes, name.bytes.as_slice()),
        CType::Array(element, size) => {
            let words = words_by(names, sizes, element).saturating_mul(*size);
            if words < WORDS_CAP { words } else { WORDS_CAP }
        }
    }
}

/// The words of a type, up to 1,048,577.
pub fn capped_words(names: &Names, sizes: &[u32], ty: &CType) -> u32
    ensures { structs.OfStructs names.now sizes.now (λ shapes. result ≡ min (words shapes (ty_of (type_view ty.now))) table.WORDS_CAP) }
{
    words_by(names, sizes, ty)
}

/// The words of the first struct of a name, up to 1,048,577, where those of each struct are given; none where no struct has the name.
pub fn struct_words(names: &Names, sizes: &[u32], text: &[u8]) -> u32
    ensures { result ≡ structs.listed_words sizes.now (look names.now text.now) }
{
    match names.get(text) {
        None => 0,
        Some(number) => match sizes.get(*number as usize) {
            None => 0,
            Some(words) => *words,
        },
    }
}

/// Resolves the names in a declared type that stands at this span, and meets its faults.
pub fn check_type(
    names: &Names,
    sizes: &[u32],
    ty: &mut CType,
    span: Span,
    least: &mut Option<Fault>,
)
    ensures met { structs.OfStructs names.now sizes.now (λ shapes. Meets least.old least.new (type_faults shapes (type_view ty.old) span)) }
    ensures named { (shapes : List Shape) → structs.KnowsStructs names.now sizes.now shapes → type_view ty.new ≡ resolved_type shapes (type_view ty.old) }
{
    let empty = has_empty_array(ty);
    let large = words_by(names, sizes, ty) > MAX_TYPE_WORDS;
    name_structs(names, ty, least);
    meet_if(least, empty, Mistake::EmptyArray, span);
    meet_if(least, large, Mistake::TypeTooLarge, span);
}
