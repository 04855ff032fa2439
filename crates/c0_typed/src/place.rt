// Variables, the bytes before fields, and the elements of arrays.

ghost use Rattle.std.specs.Prelude.{◌≡◌, ◌*◌, ◌%◌, ◌^◌};
ghost use Rattle.c0_tree.specs.View.{type_view};
ghost use Rattle.c0_meaning.specs.Form.{found_view};
ghost use Rattle.c0_meaning.specs.Sound.{shapes, IsSized};
ghost use Rattle.c0_meaning.specs.Ty.{ty_of};
ghost use Rattle.c0_meaning.specs.TypeAt.{IsFoundResolved};
ghost use Rattle.c0_meaning.specs.TypedState.{types_of};
ghost use Rattle.c0_meaning.specs.Words.{words};
ghost use Rattle.c0_typed.specs.SeenEnv.{env_seen, unit_seen};
ghost use Rattle.c0_typed.specs.Typed as spec;
ghost use Rattle.c0_typed.specs.Typed.{words_ahead, elements_in, typed_variable};
ghost use Rattle.c0_typed.specs.View.{typed_expr_view};

use crate::bytes::{bytes_of, entry, words_to_field};
use crate::seen_function::SeenFunction;
use crate::tree::{Elements, TypedExpr};
use c0_meaning::form::Found;
use c0_meaning::words_of;
use c0_tree::{CType, Kind};

// A number of words as bytes, modulo 2^32.
fn in_bytes(words: u64) -> u32
    ensures { result ≡ 4 * words % 2 ^ 32 }
{
    (words % 0x4000_0000) as u32 * 4
}

// The words before the parameter or local of a number.
fn words_to_local(function: &SeenFunction<'_>, number: u32) -> u64
    ensures { result ≡ words_ahead (env_seen function.now).structs (types_of (env_seen function.now).locals) number }
{
    entry(&function.variables, number)
}

// The words before the global of a number.
fn words_to_global(function: &SeenFunction<'_>, number: u32) -> u64
    ensures { result ≡ words_ahead (env_seen function.now).structs (types_of (env_seen function.now).globals) number }
{
    entry(&function.unit.globals, number)
}

/// A variable, by its kind and number.
pub fn variable(function: &SeenFunction<'_>, kind: Kind, number: u32) -> TypedExpr
    ensures { typed_expr_view result ≡ typed_variable (env_seen function.now) kind number }
{
    match kind {
        Kind::Unresolved => TypedExpr::Constant(0),
        Kind::Struct => TypedExpr::Constant(0),
        Kind::Field => TypedExpr::Constant(0),
        Kind::Global => TypedExpr::Global(in_bytes(words_to_global(function, number))),
        Kind::Local => TypedExpr::Local(number, words_to_local(function, number)),
        Kind::Function => TypedExpr::Constant(0),
        Kind::Primitive => TypedExpr::Constant(0),
    }
}

/// The bytes before the field of a number, where a type is a struct, modulo 2^32.
pub fn field_bytes(function: &SeenFunction<'_>, found: Found<'_>, number: u32) -> u32
    requires { IsFoundResolved (shapes (unit_seen function.now)) found }
    ensures { result ≡ spec.field_bytes (env_seen function.now).structs (found_view found.entry) number }
{
    match found {
        Found::Nothing => 0,
        Found::Int => 0,
        Found::Bool => 0,
        Found::To(_) => 0,
        Found::Of(ty) => match ty {
            CType::Int => 0,
            CType::Bool => 0,
            CType::Pointer(_) => 0,
            CType::Named(owner) => in_bytes(words_to_field(function.unit, owner, number)),
            CType::Array(_, _) => 0,
        },
    }
}

// No elements.
fn no_elements() -> Elements
    ensures { result ≡ record { count = 0; words = 0; bytes = 0 } }
{
    Elements {
        count: 0,
        words: 0,
        bytes: 0,
    }
}

/// The elements, where a type is an array.
pub fn elements_of(function: &SeenFunction<'_>, found: Found<'_>) -> Elements
    requires { IsFoundResolved (shapes (unit_seen function.now)) found }
    ensures { result ≡ elements_in (env_seen function.now).structs (found_view found.entry) }
{
    match found {
        Found::Nothing => no_elements(),
        Found::Int => no_elements(),
        Found::Bool => no_elements(),
        Found::To(_) => no_elements(),
        Found::Of(ty) => match ty {
            CType::Int => no_elements(),
            CType::Bool => no_elements(),
            CType::Pointer(_) => no_elements(),
            CType::Named(_) => no_elements(),
            CType::Array(element, count) => Elements {
                count: *count,
                words: words_of(element, function.unit.unit),
                bytes: bytes_of(function.unit.unit, element),
            },
        },
    }
}

/// The words of a type, of which there are few.
pub fn words_in(function: &SeenFunction<'_>, ty: &CType) -> u32
    requires { IsSized (env_seen function.now).structs (type_view ty.now) }
    ensures { result ≡ words (env_seen function.now).structs (ty_of (type_view ty.now)) }
{
    words_of(ty, function.unit.unit)
}
