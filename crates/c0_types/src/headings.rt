// The headings of functions: their results and parameters.

ghost use Rattle.std.specs.Prelude.{◌≡◌, ◌<◌, ◌^◌, length, map};
ghost use Rattle.c0_meaning.specs.DeclaredTypes as spec;
ghost use Rattle.c0_meaning.specs.Fault.{kept_all};
ghost use Rattle.c0_meaning.specs.Limits as limits;
ghost use Rattle.c0_meaning.specs.Ty.{ty_of};
ghost use Rattle.c0_name_check.specs.Met.{Meets, met_view};
ghost use Rattle.c0_name_check.specs.Structs.{OfStructs};
ghost use Rattle.c0_tree.specs.View.{body_view, decl_view, function_view, type_view};
ghost use Rattle.c0_types.specs.Parts.{heading_faults, headed};

use crate::decls::check_decls;
use c0_name_check::met::{Fault, Mistake, meet_at, meet_if};
use c0_name_check::names::Names;
use c0_name_check::types::check_type;
use c0_tree::{Body, CType, Decl, Function, Kind, Span};

// Whether a type is one of a parameter or result: a scalar, and of an asm function `int` alone.
fn may_pass(is_asm: bool, ty: &CType) -> bool
    ensures { result ≡ spec.may_pass is_asm (ty_of (type_view ty.now)) }
{
    match ty {
        CType::Int => true,
        CType::Bool => !is_asm,
        CType::Pointer(_) => !is_asm,
        CType::Named(_) => false,
        CType::Array(_, _) => false,
    }
}

// Meets a type at this span that is no type of a parameter or result.
fn meet_unpassed(is_asm: bool, ty: &CType, span: Span, least: &mut Option<Fault>)
    ensures { met_view least.new ≡ kept_all (met_view least.old) (spec.pass_fault is_asm (type_view ty.now) span) }
{
    if !may_pass(is_asm, ty) {
        meet_at(least, Mistake::WrongType, span);
    }
}

// Meets the parameters whose types can't be passed.
fn meet_unpassed_params(is_asm: bool, params: &[Decl], least: &mut Option<Fault>)
    ensures { met_view least.new ≡ kept_all (met_view least.old) (spec.pass_faults is_asm (map decl_view params.now)) }
{
    for param in params {
        meet_unpassed(is_asm, &param.ty, param.ty_span, least);
    }
}

// How many parameters a function has at most.
fn max_parameters(is_asm: bool) -> usize
    ensures { result ≡ limits.max_parameters is_asm }
{
    if is_asm { 4 } else { 8 }
}

// Whether a body is an asm text.
fn is_asm_text(body: &Body) -> bool
    ensures { result ≡ limits.is_asm (body_view body.now) }
{
    matches!(body, Body::Asm(_))
}

/// Checks the heading of the function of this number: its name and those of its parameters get their numbers, and its faults are met.
pub fn check_heading(
    names: &Names,
    words: &[u32],
    number: u32,
    function: &mut Function,
    least: &mut Option<Fault>,
)
    requires few { length function.old.params.items < 2 ^ 32 }
    ensures met { OfStructs names.now words.now (λ shapes. Meets least.old least.new (heading_faults shapes (function_view function.old))) }
    ensures named { OfStructs names.now words.now (λ shapes. function_view function.new ≡ headed shapes number (function_view function.old)) }
{
    let is_asm = is_asm_text(&function.body);
    check_type(
        names,
        words,
        &mut function.answer,
        function.answer_span,
        least,
    );
    meet_unpassed(is_asm, &function.answer, function.answer_span, least);
    function.name.kind = Kind::Function;
    function.name.number = number;
    check_decls(names, words, Kind::Local, 0, &mut function.params, least);
    meet_unpassed_params(is_asm, &function.params, least);
    let too_many = function.params.len() > max_parameters(is_asm);
    meet_if(
        least,
        too_many,
        Mistake::TooManyParameters,
        function.name.span,
    );
}
