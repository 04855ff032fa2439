// Where globals, fields and variables begin, in words.

ghost use Rattle.std.specs.Prelude.{◌≡◌, ◌≤◌, ◌<◌, ◌+◌, ◌*◌, ◌^◌, ◌++◌, map, length, slice_get, Some, IfOk, OnOk};
ghost use Rattle.std.specs.List.{All};
ghost use Rattle.c0_tree.specs.Tree.{CFunction};
ghost use Rattle.c0_tree.specs.View.{decl_view, function_view, struct_view, unit_view};
ghost use Rattle.c0_meaning.specs.Env.{typed_of};
ghost use Rattle.c0_meaning.specs.Words.{all_words};
ghost use Rattle.c0_meaning.specs.DeclaredTypes.{MAX_TYPE_WORDS};
ghost use Rattle.c0_meaning.specs.Offsets as spec;
ghost use Rattle.c0_meaning.specs.Offsets.{decl_offsets, offsets, offsets_from};
ghost use Rattle.c0_meaning.specs.Sound.{shapes, IsSized, IsSizedFunction, IsSizedStruct};
ghost use Rattle.c0_meaning.specs.TypeAt.{IsAt};
ghost use Rattle.c0_meaning.specs.TypedState.{types_of, variable_types};

use crate::measured::Measured;
use crate::sizes::words_of;
use c0_tree::{Body, Decl, Function, StructDef};
use std::alloc::{AllocError, Global};

// Adds where each of these declarations begins, the first of them at a word, and answers where the last one ends.
fn push_offsets(
    start: u64,
    decls: &[Decl],
    unit: &Measured<'_>,
    offsets: &mut Vec<u64>,
) -> Result<u64, AllocError>
    requires low { start < 2 ^ 53 }
    requires decls { All (λ d. IsSized (shapes (unit_view unit.now)) d.ty) (map decl_view decls.now) }
    requires few { length decls.now < 2 ^ 32 }
    ensures offsets { OnOk result (offsets.new.items ≡ offsets.old.items ++ decl_offsets (shapes (unit_view unit.now)) start (map decl_view decls.now)) }
    ensures end { IfOk result (λ n. n ≡ start + all_words (shapes (unit_view unit.now)) (map typed_of (map decl_view decls.now))) }
    ensures small { IfOk result (λ n. n ≤ start + length decls.now * MAX_TYPE_WORDS) }
{
    let mut at = start;
    for decl in decls {
        offsets.push(at)?;
        at += u64::from(words_of(&decl.ty, unit));
    }
    Ok(at)
}

/// Where each global begins, in words from the first one, by its number.
pub fn global_offsets(alloc: Global, unit: &Measured<'_>) -> Result<Vec<u64>, AllocError>
    ensures { IfOk result (λ v. v.items ≡ offsets (shapes (unit_view unit.now)) (types_of (map typed_of (unit_view unit.now).globals))) }
{
    let mut offsets = Vec::new(alloc);
    push_offsets(0, &unit.unit().globals, unit, &mut offsets)?;
    Ok(offsets)
}

// Where each parameter and local of a function begins.
fn function_offsets(
    alloc: Global,
    function: &Function,
    unit: &Measured<'_>,
) -> Result<Vec<u64>, AllocError>
    requires { IsSizedFunction (shapes (unit_view unit.now)) (function_view function.now) }
    ensures { IfOk result (λ v. v.items ≡ offsets (shapes (unit_view unit.now)) (variable_types (function_view function.now))) }
{
    let mut offsets = Vec::new(alloc);
    let end = push_offsets(0, &function.params, unit, &mut offsets)?;
    match &function.body {
        Body::Code(code) => {
            push_offsets(end, &code.locals, unit, &mut offsets)?;
            Ok(offsets)
        }
        Body::Asm(_) => Ok(offsets),
    }
}

/// Where each parameter and each local behind them begins, in words from the first one, by its number. An asm function has no locals.
pub fn variable_offsets(
    alloc: Global,
    unit: &Measured<'_>,
    function: u32,
) -> Result<Vec<u64>, AllocError>
    requires { function < length unit.now.functions.items }
    ensures { (f : CFunction) → IsAt function (unit_view unit.now) f → IfOk result (λ v. v.items ≡ offsets (shapes (unit_view unit.now)) (variable_types f)) }
{
    function_offsets(alloc, &unit.unit().functions[function as usize], unit)
}

// Where each field of a struct begins.
fn struct_offsets(
    alloc: Global,
    def: &StructDef,
    unit: &Measured<'_>,
) -> Result<Vec<u64>, AllocError>
    requires fields { All (λ d. IsSized (shapes (unit_view unit.now)) d.ty) (struct_view def.now).fields }
    requires few { length (struct_view def.now).fields < 2 ^ 32 }
    ensures { IfOk result (λ v. v.items ≡ spec.struct_offsets (shapes (unit_view unit.now)) (struct_view def.now)) }
{
    let mut offsets = Vec::new(alloc);
    push_offsets(0, &def.fields, unit, &mut offsets)?;
    Ok(offsets)
}

// Where each field of these structs begins.
fn structs_offsets(
    alloc: Global,
    structs: &[StructDef],
    unit: &Measured<'_>,
) -> Result<Vec<Vec<u64>>, AllocError>
    requires fields { All (IsSizedStruct (shapes (unit_view unit.now))) (map struct_view structs.now) }
    requires few { All (λ s. length s.fields < 2 ^ 32) (map struct_view structs.now) }
    ensures { IfOk result (λ vs. map (λ v. v.items) vs.items ≡ map (spec.struct_offsets (shapes (unit_view unit.now))) (map struct_view structs.now)) }
{
    let mut all = Vec::new(alloc);
    for def in structs {
        all.push(struct_offsets(alloc, def, unit)?)?;
    }
    Ok(all)
}

/// Where each field of each struct begins, in words from its first one, by the numbers of the struct and of the field.
pub fn field_offsets(alloc: Global, unit: &Measured<'_>) -> Result<Vec<Vec<u64>>, AllocError>
    ensures { IfOk result (λ vs. map (λ v. v.items) vs.items ≡ spec.field_offsets (unit_view unit.now)) }
{
    structs_offsets(alloc, &unit.unit().structs, unit)
}
