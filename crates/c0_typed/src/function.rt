// The typed tree of functions.

ghost use Rattle.std.specs.Prelude.{◌≡◌, ◌<◌, length, map, IfOk};
ghost use Rattle.std.specs.List.{All};
ghost use Rattle.c0_tree.specs.View.{body_view, decl_view, function_view, unit_view};
ghost use Rattle.c0_meaning.specs.Limits.{locals_of};
ghost use Rattle.c0_meaning.specs.Sound.{IsSized, IsSizedFunction};
ghost use Rattle.c0_typed.specs.Elaborated.{TypesFunction};
ghost use Rattle.c0_typed.specs.SeenEnv.{env_seen};
ghost use Rattle.c0_typed.specs.Sized.{IsSizedBody};
ghost use Rattle.c0_typed.specs.Typed.{typed_in, typed_of_body, typed_of_local};
ghost use Rattle.c0_typed.specs.View.{typed_body_view, typed_function_view};

use crate::expression::typed_expr;
use crate::laws::bodies_are_sized;
use crate::leaf::{calls_in, is_scalar, keeps_registers};
use crate::place::words_in;
use crate::seen_function::SeenFunction;
use crate::seen_unit::SeenUnit;
use crate::statement::typed_stmts;
use crate::tree::{LocalType, TypedBody, TypedCode, TypedFunction};
use c0_meaning::frame_words;
use c0_meaning::laws::well_formed_units_are_sized;
use c0_tree::{Body, Decl, Function};
use std::alloc::{AllocError, Global};

// A local: its words, and whether it is a scalar.
fn typed_local(function: &SeenFunction<'_>, decl: &Decl) -> LocalType
    requires { IsSized (env_seen function.now).structs (decl_view decl.now).ty }
    ensures { result ≡ typed_of_local (env_seen function.now).structs (decl_view decl.now) }
{
    LocalType {
        words: words_in(function, &decl.ty),
        scalar: is_scalar(&decl.ty),
    }
}

// The locals of a body.
fn typed_locals(
    alloc: Global,
    function: &SeenFunction<'_>,
    locals: &[Decl],
) -> Result<Vec<LocalType>, AllocError>
    requires { All (λ d. IsSized (env_seen function.now).structs d.ty) (map decl_view locals.now) }
    ensures { IfOk result (λ x. x.items ≡ map (typed_of_local (env_seen function.now).structs) (map decl_view locals.now)) }
{
    let mut all = Vec::new(alloc);
    for decl in locals {
        all.push(typed_local(function, decl))?;
    }
    Ok(all)
}

// The typed tree of a body.
fn typed_body(
    alloc: Global,
    function: &SeenFunction<'_>,
    body: &Body,
) -> Result<TypedBody, AllocError>
    requires locals { All (λ d. IsSized (env_seen function.now).structs d.ty) (locals_of (body_view body.now)) }
    requires objects { IsSizedBody (env_seen function.now).structs (body_view body.now) }
    ensures { IfOk result (λ x. typed_body_view x ≡ typed_of_body (env_seen function.now) (body_view body.now)) }
{
    match body {
        Body::Code(code) => Ok(TypedBody::Code(TypedCode {
            locals: typed_locals(alloc, function, &code.locals)?,
            stmts: typed_stmts(alloc, function, &code.stmts)?,
            answer: typed_expr(alloc, function, &code.answer)?,
        })),
        Body::Asm(text) => Ok(TypedBody::Asm(text.words.clone()?)),
    }
}

// The typed tree of a function whose frame has so many words.
fn typed_parts(
    alloc: Global,
    seen: &SeenFunction<'_>,
    frame: u64,
    function: &Function,
) -> Result<TypedFunction, AllocError>
    requires sized { IsSizedFunction (env_seen seen.now).structs (function_view function.now) }
    requires objects { IsSizedBody (env_seen seen.now).structs (function_view function.now).body }
    ensures { IfOk result (λ x. typed_function_view x ≡ typed_in (env_seen seen.now) frame (function_view function.now)) }
{
    Ok(TypedFunction {
        params: function.params.len() as u32,
        frame,
        in_registers: keeps_registers(function),
        calling: calls_in(&function.body),
        body: typed_body(alloc, seen, &function.body)?,
    })
}

/// The typed tree of the function of a number.
pub fn typed_function(
    alloc: Global,
    unit: &SeenUnit<'_>,
    number: u32,
) -> Result<TypedFunction, AllocError>
    requires { number < length (unit_view unit.now.unit.now).functions }
    ensures { TypesFunction (unit_view unit.now.unit.now) number result }
{
    bodies_are_sized();
    well_formed_units_are_sized();
    let seen = SeenFunction::new(alloc, &*unit, number)?;
    let frame = frame_words(unit.unit, number);
    let function = &unit.unit.unit().functions[number as usize];
    typed_parts(alloc, &seen, frame, function)
}
