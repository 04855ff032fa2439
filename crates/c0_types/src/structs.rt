// The structs of a unit.

ghost use Rattle.std.specs.Prelude.{◌≡◌, ◌<◌, ◌^◌, ℕ, List, IfOk, OnOk, length, map};
ghost use Rattle.std.specs.List.{All};
ghost use Rattle.c0_body_check.specs.Scope.{FieldsTell, MapTells, typed_view};
ghost use Rattle.c0_meaning.specs.DeclaredTypes as spec;
ghost use Rattle.c0_meaning.specs.Env.{Shape, shape_of};
ghost use Rattle.c0_meaning.specs.Fault.{kept_all};
ghost use Rattle.c0_meaning.specs.Names.{struct_name_faults, decl_name_faults};
ghost use Rattle.c0_meaning.specs.Resolved.{resolved_structs};
ghost use Rattle.c0_meaning.specs.Sizes.{struct_sizes as table};
ghost use Rattle.c0_meaning.specs.Ty as ty;
ghost use Rattle.c0_meaning.specs.Unit.{structs_faults};
ghost use Rattle.c0_meaning.specs.Words.{holds};
ghost use Rattle.c0_name_check.specs.Met.{Meets, met_view};
ghost use Rattle.c0_name_check.specs.Names.{look, number_named};
ghost use Rattle.c0_name_check.specs.Structs.{KnowsStructs, OfStructs};
ghost use Rattle.c0_tree.specs.View.{decl_view, struct_view};
ghost use Rattle.c0_types.specs.Checks.{MeetsStruct, ResolvesStruct, faults_of_structs};

use crate::decls::check_decls;
use c0_meaning::limits::MAX_TYPE_WORDS;
use c0_name_check::met::{Fault, Mistake, meet_if};
use c0_name_check::names::Names;
use c0_name_check::spaces::{declare, declare_all, twice_by_test_is_twice};
use c0_name_check::types::struct_words;
use c0_struct_sizes::sizes::struct_sizes;
use c0_tree::{Decl, Kind, Name, StructDef};
use indexmap::IndexMap;
use std::alloc::{AllocError, Global};

/// What is known of the structs of a unit.
#[derive(Drop)]
pub struct KnownStructs {
    /// The number of the struct of each name.
    pub names: Names,
    /// The words of each struct, up to one more than it may have.
    pub words: Vec<u32>,
    /// For each struct the number of the field of each name.
    pub field_names: Vec<Names>,
}

// The numbers of structs by their names; the names that are set before are met.
fn name_structs(
    alloc: Global,
    structs: &[StructDef],
    least: &mut Option<Fault>,
) -> Result<Names, AllocError>
    requires { length structs.now < 2 ^ 32 }
    ensures names { IfOk result (λ n. (text : List ℕ) → look n text ≡ number_named (λ s. s.text) text 0 (map shape_of (map struct_view structs.now))) }
    ensures met { OnOk result (met_view least.new ≡ kept_all (met_view least.old) (struct_name_faults (map struct_view structs.now))) }
{
    twice_by_test_is_twice();
    let mut names = IndexMap::new(alloc);
    let mut number = 0u32;
    for definition in structs {
        declare(alloc, &mut names, &definition.name, number, least)?;
        number += 1;
    }
    Ok(names)
}

// The numbers of fields by their names; the names that are set before are met.
fn name_fields(
    alloc: Global,
    fields: &[Decl],
    least: &mut Option<Fault>,
) -> Result<Names, AllocError>
    requires { length fields.now < 2 ^ 32 }
    ensures names { IfOk result (λ n. (text : List ℕ) → look n text ≡ number_named (λ d. d.name.text) text 0 (map decl_view fields.now)) }
    ensures met { OnOk result (met_view least.new ≡ kept_all (met_view least.old) (decl_name_faults (map decl_view fields.now))) }
{
    twice_by_test_is_twice();
    let mut names = IndexMap::new(alloc);
    declare_all(alloc, &mut names, fields, 0, least)?;
    Ok(names)
}

// Whether the first struct of a name has too many words.
fn is_too_large(names: &Names, words: &[u32], name: &Name) -> bool
    ensures { (shapes : List Shape) → KnowsStructs names.now words.now shapes → result ≡ spec.is_too_large shapes (ty.named name.now.bytes.items) }
{
    struct_words(names, words, name.bytes.as_slice()) > MAX_TYPE_WORDS
}

// Checks the struct of this number: its name and those of its fields get their numbers, and its faults are met. The answer has the numbers
// of its fields by their names.
fn check_struct(
    alloc: Global,
    names: &Names,
    words: &[u32],
    number: u32,
    holds_itself: bool,
    definition: &mut StructDef,
    least: &mut Option<Fault>,
) -> Result<Names, AllocError>
    requires few { length definition.old.fields.items < 2 ^ 32 }
    ensures fields { IfOk result (λ n. OfStructs names.now words.now (λ shapes. MapTells (λ v. v.text) n (map typed_view definition.new.fields.items))) }
    ensures named { OnOk result (OfStructs names.now words.now (ResolvesStruct number definition.old definition.new)) }
    ensures met { OnOk result (OfStructs names.now words.now (MeetsStruct least.old least.new holds_itself definition.old)) }
{
    let too_large = is_too_large(names, words, &definition.name);
    let span = definition.name.span;
    meet_if(least, holds_itself, Mistake::StructHoldsItself, span);
    meet_if(least, too_large, Mistake::TypeTooLarge, span);
    let fields = name_fields(alloc, &definition.fields, least)?;
    check_decls(names, words, Kind::Field, 0, &mut definition.fields, least);
    definition.name.kind = Kind::Struct;
    definition.name.number = number;
    Ok(fields)
}

// Checks structs, of which it is told which hold themselves. The answer has for each struct the numbers of its fields by their names.
fn check_each(
    alloc: Global,
    names: &Names,
    words: &[u32],
    hold_themselves: &[bool],
    structs: &mut [StructDef],
    least: &mut Option<Fault>,
) -> Result<Vec<Names>, AllocError>
    requires few { length structs.old < 2 ^ 32 }
    requires few_fields { All (λ s. length s.fields < 2 ^ 32) (map struct_view structs.old) }
    requires known { KnowsStructs names.now words.now (map shape_of (map struct_view structs.old)) }
    requires held { hold_themselves.now ≡ map (λ x. holds (map shape_of (map struct_view structs.old)) x.name.text x.name.text) (map struct_view structs.old) }
    ensures fields { IfOk result (λ n. FieldsTell n.items structs.new) }
    ensures named { OnOk result (map struct_view structs.new ≡ resolved_structs (map shape_of (map struct_view structs.old)) 0 (map struct_view structs.old)) }
    ensures met { OnOk result (Meets least.old least.new (structs_faults (map shape_of (map struct_view structs.old)) (map struct_view structs.old))) }
{
    let mut field_names = Vec::new(alloc);
    let mut number = 0u32;
    for definition in structs.iter_mut() {
        let holds_itself = hold_themselves[number as usize];
        let fields = check_struct(alloc, names, words, number, holds_itself, definition, least)?;
        field_names.push(fields)?;
        number += 1;
    }
    Ok(field_names)
}

/// Checks structs: their names and those of their fields get their numbers, and their faults are met. The one error is want of memory.
pub fn check_structs(
    alloc: Global,
    structs: &mut [StructDef],
    least: &mut Option<Fault>,
) -> Result<KnownStructs, AllocError>
    requires few { length structs.old < 2 ^ 32 }
    requires few_fields { All (λ s. length s.fields < 2 ^ 32) (map struct_view structs.old) }
    ensures known { IfOk result (λ k. KnowsStructs k.names k.words.items (map shape_of (map struct_view structs.old))) }
    ensures words { IfOk result (λ k. k.words.items ≡ table (map shape_of (map struct_view structs.old))) }
    ensures fields { IfOk result (λ k. FieldsTell k.field_names.items structs.new) }
    ensures named { OnOk result (map struct_view structs.new ≡ resolved_structs (map shape_of (map struct_view structs.old)) 0 (map struct_view structs.old)) }
    ensures met { OnOk result (Meets least.old least.new (faults_of_structs (map struct_view structs.old))) }
{
    let names = name_structs(alloc, structs, least)?;
    let sizes = struct_sizes(alloc, &names, structs)?;
    let field_names = check_each(
        alloc,
        &names,
        &sizes.words,
        &sizes.holds_itself,
        structs,
        least,
    )?;
    Ok(KnownStructs {
        names,
        words: sizes.words,
        field_names,
    })
}
