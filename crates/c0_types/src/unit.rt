// A whole unit.

ghost use Rattle.std.specs.Prelude.{◌≡◌, ◌<◌, ◌-◌, ◌^◌, true, [], IfOk, IfErr, OnOk, length, map, min, slice_index_or};
ghost use Rattle.std.specs.List.{list_any, list_all};
ghost use Rattle.c0_meaning.specs.Fault.{kept_all};
ghost use Rattle.c0_meaning.specs.Limits as limits;
ghost use Rattle.c0_meaning.specs.Sizes.{IsMeasured, struct_sizes};
ghost use Rattle.c0_meaning.specs.Sound.{shapes};
ghost use Rattle.c0_meaning.specs.Unit.{IsCheckedAs};
ghost use Rattle.c0_name_check.specs.Met.{Meets, met_view, mistake_number};
ghost use Rattle.c0_name_check.specs.Structs.{OfStructs};
ghost use Rattle.c0_tree.specs.Plain.{is_plain};
ghost use Rattle.c0_tree.specs.Primitives.{primitive_view, primitives_of};
ghost use Rattle.c0_tree.specs.Tree.{CFunction};
ghost use Rattle.c0_tree.specs.View.{function_view, unit_view};
ghost use Rattle.c0_tree.specs.declared.primitive.Program.TheVariants.{Kernel, User};
ghost use Rattle.c0_types.specs.Answer.{FaultAnswers, FaultAnswersAs};
ghost use Rattle.c0_types.specs.Checks.{ChecksBodyAt, MeetsBodyAt};
ghost use Rattle.c0_types.specs.Known.{KnowsUnit, TellUnit, unit_env};
ghost use Rattle.c0_types.specs.Parts.{bodied, bodies_faults, functions_nodes, headed_functions, headings_faults, is_plain_function};
ghost use Rattle.c0_types.specs.Parts.{nodes_read, outer_faults, outer_unit};
ghost use Rattle.c0_types.specs.Source.{checked_as, checked_unit, source_faults, source_faults_as};
ghost use Rattle.c0_types.specs.TypedSource.{IsTypedSource};

use crate::bodies::{Declared, check_body};
use crate::decls::{are_too_large, check_decls};
use crate::fault::{TypeFault, answer_of};
use crate::headings::check_heading;
use crate::laws::sources_are_typed_or_faulty;
use crate::space::{UnitNames, name_unit};
use crate::structs::{KnownStructs, check_structs};
use c0_meaning::laws::{
    faultless_units_are_checked, kept_fault_is_least, meeting_is_free_of_order, resolving_is_stable,
};
use c0_meaning::{Checked, UserChecked, find_first};
use c0_name_check::met::{Fault, Mistake, meet_if};
use c0_name_check::names::Names;
use c0_tree::{
    AsmText, Body, Function, Kind, Primitive, Program, Span, Unit, primitives, user_primitives,
};
use std::alloc::{AllocError, Global};

/// How many nodes all functions have together at most.
const MAX_UNIT_NODES: u32 = 100_000;

// What is wrong with a unit that has no function with which its run begins.
fn without_first(program: Program) -> Mistake
    ensures { mistake_number result ≡ limits.none_first program }
{
    match program {
        Program::Kernel => Mistake::NoDispatch,
        Program::User => Mistake::NoMain,
    }
}

// Whether one of functions is the one with which a run begins.
fn has_first(program: Program, functions: &[Function]) -> bool
    ensures { result ≡ list_any (limits.is_first program) (map function_view functions.now) }
{
    find_first(program, functions).is_some()
}

// Checks the headings of functions.
fn check_headings(
    names: &Names,
    words: &[u32],
    functions: &mut [Function],
    least: &mut Option<Fault>,
)
    requires few { length functions.old < 2 ^ 32 }
    requires plain { list_all is_plain_function (map function_view functions.old) ≡ true }
    ensures met { OfStructs names.now words.now (λ shapes. Meets least.old least.new (headings_faults shapes (map function_view functions.old))) }
    ensures named { OfStructs names.now words.now (λ shapes. map function_view functions.new ≡ headed_functions shapes 0 (map function_view functions.old)) }
{
    let mut number = 0;
    for function in functions {
        check_heading(names, words, number, function, least);
        number += 1;
    }
}

// Checks the body of the function at a place, and answers its nodes, up to 2^32 - 1. The body is taken out while it is checked.
fn check_body_at(
    alloc: Global,
    declared: &Declared<'_>,
    functions: &mut [Function],
    place: usize,
    least: &mut Option<Fault>,
) -> Result<u32, AllocError>
    requires knows { KnowsUnit declared.now functions.old }
    requires within { place < length functions.old }
    requires plain { (other : CFunction) → is_plain_function (slice_index_or (map function_view functions.old) place other) ≡ true }
    ensures nodes { IfOk result (λ n. (other : CFunction) → n ≡ min (nodes_read (slice_index_or (map function_view functions.old) place other)) (2 ^ 32 - 1)) }
    ensures met { OnOk result (MeetsBodyAt declared.now functions.old place least.old least.new) }
    ensures resolved { OnOk result (ChecksBodyAt declared.now place functions.old functions.new) }
{
    let function = &mut functions[place];
    let empty = Body::Asm(AsmText {
        bytes: Vec::new(alloc),
        span: function.name.span,
        words: Vec::new(alloc),
    });
    let mut body = std::mem::replace(&mut function.body, empty);
    let all = &functions[..];
    let nodes = check_body(alloc, declared, all, &all[place], &mut body, least)?;
    functions[place].body = body;
    Ok(nodes)
}

// Checks the bodies of functions whose headings are checked, and answers the nodes of all functions, up to 2^32 - 1.
fn check_bodies(
    alloc: Global,
    declared: &Declared<'_>,
    functions: &mut [Function],
    least: &mut Option<Fault>,
) -> Result<u32, AllocError>
    requires knows { KnowsUnit declared.now functions.old }
    requires plain { list_all is_plain_function (map function_view functions.old) ≡ true }
    ensures nodes { IfOk result (λ n. n ≡ min (functions_nodes (map function_view functions.old)) (2 ^ 32 - 1)) }
    ensures met { OnOk result (Meets least.old least.new (bodies_faults (unit_env declared.now functions.old) (map function_view functions.old))) }
    ensures resolved { OnOk result (map function_view functions.new ≡ map (bodied (unit_env declared.now functions.old)) (map function_view functions.old)) }
{
    let mut nodes = 0u32;
    for place in 0..functions.len() {
        nodes = nodes.saturating_add(check_body_at(alloc, declared, functions, place, least)?);
    }
    Ok(nodes)
}

// Checks what a unit declares outside of bodies.
fn check_outside(
    alloc: Global,
    table: &[Primitive],
    unit: &mut Unit,
    least: &mut Option<Fault>,
) -> Result<(KnownStructs, UnitNames), AllocError>
    requires plain { is_plain (unit_view unit.old) ≡ true }
    requires table { length table.now < 2 ^ 32 }
    ensures tells { IfOk result (λ k. TellUnit k.0 k.1 unit.new.structs.items unit.new.globals.items unit.new.functions.items table.now) }
    ensures words { IfOk result (λ k. k.0.words.items ≡ struct_sizes (shapes (unit_view unit.old))) }
    ensures met { OnOk result (met_view least.new ≡ kept_all (met_view least.old) (outer_faults (map primitive_view table.now) (unit_view unit.old))) }
    ensures named { OnOk result (unit_view unit.new ≡ outer_unit (unit_view unit.old)) }
{
    let known = check_structs(alloc, &mut unit.structs, least)?;
    let names = name_unit(alloc, table, &unit.globals, &unit.functions, least)?;
    let large = are_too_large(&known.names, &known.words, &unit.globals);
    meet_if(least, large, Mistake::GlobalsTooLarge, whole(unit));
    check_decls(
        &known.names,
        &known.words,
        Kind::Global,
        0,
        &mut unit.globals,
        least,
    );
    check_headings(&known.names, &known.words, &mut unit.functions, least);
    Ok((known, names))
}

// The span of a whole source.
fn whole(unit: &Unit) -> Span
    ensures { result ≡ limits.whole_span unit.now.length }
{
    Span {
        start: 0,
        end: unit.length,
    }
}

// Checks a unit by a table of primitives: its faults are met, its names are resolved, and its asm bodies get their words. The answer has
// the words of its structs.
fn check_by(
    alloc: Global,
    program: Program,
    table: &[Primitive],
    unit: &mut Unit,
    least: &mut Option<Fault>,
) -> Result<Vec<u32>, AllocError>
    requires plain { is_plain (unit_view unit.old) ≡ true }
    requires rows { map primitive_view table.now ≡ primitives_of program }
    requires few { length table.now < 2 ^ 32 }
    ensures words { IfOk result (λ w. w.items ≡ struct_sizes (shapes (unit_view unit.old))) }
    ensures met { OnOk result (met_view least.new ≡ kept_all (met_view least.old) (source_faults_as program (unit_view unit.old))) }
    ensures resolved { OnOk result (unit_view unit.new ≡ checked_as program (unit_view unit.old)) }
{
    meeting_is_free_of_order();
    resolving_is_stable();
    let (known, names) = check_outside(alloc, table, unit, least)?;
    let declared = Declared {
        structs: &unit.structs,
        known: &known,
        globals: &unit.globals,
        primitives: table,
        names: &names,
    };
    let nodes = check_bodies(alloc, &declared, &mut unit.functions, least)?;
    let span = whole(unit);
    meet_if(least, nodes > MAX_UNIT_NODES, Mistake::UnitTooLarge, span);
    let found = has_first(program, &unit.functions);
    meet_if(least, !found, without_first(program), span);
    Ok(known.words)
}

// Checks the unit of a kernel or a user program, and answers the words of its structs.
fn check_unit(
    alloc: Global,
    program: Program,
    unit: &mut Unit,
    least: &mut Option<Fault>,
) -> Result<Vec<u32>, AllocError>
    requires plain { is_plain (unit_view unit.old) ≡ true }
    ensures words { IfOk result (λ w. w.items ≡ struct_sizes (shapes (unit_view unit.old))) }
    ensures met { OnOk result (met_view least.new ≡ kept_all (met_view least.old) (source_faults_as program (unit_view unit.old))) }
    ensures resolved { OnOk result (unit_view unit.new ≡ checked_as program (unit_view unit.old)) }
{
    match program {
        Program::Kernel => check_by(alloc, program, &primitives(), unit, least),
        Program::User => check_by(alloc, program, &user_primitives(), unit, least),
    }
}

// The unit of a kernel or a user program with its asm texts read and its names resolved, and the words of its structs, if no fault stands
// in it; else the fault that comes first.
pub(crate) fn checked(
    alloc: Global,
    program: Program,
    unit: Unit,
) -> Result<(Unit, Vec<u32>), TypeFault>
    requires plain { is_plain (unit_view unit) ≡ true }
    ensures checked { IfOk result (λ v. IsCheckedAs program (unit_view v.0)) }
    ensures measured { IfOk result (λ v. IsMeasured (unit_view v.0) v.1.items) }
    ensures faultless { IfOk result (λ v. source_faults_as program (unit_view unit) ≡ []) }
    ensures typed { IfOk result (λ v. IsTypedSource program (unit_view unit)) }
    ensures resolved { IfOk result (λ v. unit_view v.0 ≡ checked_as program (unit_view unit)) }
    ensures fault { IfErr result (FaultAnswersAs program (unit_view unit)) }
{
    kept_fault_is_least();
    faultless_units_are_checked();
    resolving_is_stable();
    sources_are_typed_or_faulty();
    let mut unit = unit;
    let mut least = None;
    let words = check_unit(alloc, program, &mut unit, &mut least)?;
    match least {
        Some(fault) => Err(answer_of(fault)),
        None => Ok((unit, words)),
    }
}

/// The unit of a kernel with its asm texts read and its names resolved, if no fault stands in it; else the fault that comes first: the one
/// whose span starts first and, among those, the one of the least number. Want of memory is the one other error. The unit is spent either
/// way.
pub fn check(alloc: Global, unit: Unit) -> Result<Checked, TypeFault>
    requires plain { is_plain (unit_view unit) ≡ true }
    ensures faultless { IfOk result (λ c. source_faults (unit_view unit) ≡ []) }
    ensures typed { IfOk result (λ c. IsTypedSource Kernel (unit_view unit)) }
    ensures resolved { IfOk result (λ c. unit_view c ≡ checked_unit (unit_view unit)) }
    ensures fault { IfErr result (FaultAnswers (unit_view unit)) }
{
    match checked(alloc, Program::Kernel, unit) {
        Ok((unit, words)) => Ok(Checked::new(unit, words)),
        Err(fault) => Err(fault),
    }
}

/// The unit of a user program, as [`check`] gives that of a kernel: its one primitive is `int trap(int)`, and where it has no `int main()`
/// with a code body, that is its fault of the whole source, where a kernel's is a missing `dispatch`.
pub fn check_user(alloc: Global, unit: Unit) -> Result<UserChecked, TypeFault>
    requires plain { is_plain (unit_view unit) ≡ true }
    ensures faultless { IfOk result (λ c. source_faults_as User (unit_view unit) ≡ []) }
    ensures typed { IfOk result (λ c. IsTypedSource User (unit_view unit)) }
    ensures resolved { IfOk result (λ c. unit_view c ≡ checked_as User (unit_view unit)) }
    ensures fault { IfErr result (FaultAnswersAs User (unit_view unit)) }
{
    match checked(alloc, Program::User, unit) {
        Ok((unit, words)) => Ok(UserChecked::new(unit, words)),
        Err(fault) => Err(fault),
    }
}
