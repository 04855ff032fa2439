// The types of expressions, by the numbers of their names, step by step: each from those of its parts.

ghost use Rattle.std.specs.Prelude.{◌≡◌, ◌<◌, ◌++◌, List, Some, length, get_or, map, option_map, slice_get, true};
ghost use Rattle.std.specs.List.{All};
ghost use Rattle.c0_tree.specs.Tree.{CFunction, named};
ghost use Rattle.c0_tree.specs.View.{decl_view, function_view, name_view, unit_view};
ghost use Rattle.c0_meaning.specs.Env.{Shape, typed_of};
ghost use Rattle.c0_meaning.specs.Expression as expression;
ghost use Rattle.c0_meaning.specs.Form.{found_view, is_declared};
ghost use Rattle.c0_meaning.specs.Limits.{locals_of};
ghost use Rattle.c0_meaning.specs.Numbered.{variable_at};
ghost use Rattle.c0_meaning.specs.Resolved.{IsResolved};
ghost use Rattle.c0_meaning.specs.Sound.{shapes, IsSized, IsSizedFunction};
ghost use Rattle.c0_meaning.specs.TypeAt as spec;
ghost use Rattle.c0_meaning.specs.TypeAt.{IsAt, IsFoundResolved, declared_at, env_in};
ghost use Rattle.c0_meaning.specs.Ty.{pointer};
ghost use Rattle.c0_meaning.specs.Words.{shape_fields};

use crate::form::Found;
use crate::measured::Measured;
use c0_tree::{BinaryOp, Body, CType, Decl, Function, Kind, Name, StructDef, UnaryOp};

/// The type behind a pointer.
pub fn target_of<'a>(found: Found<'a>) -> Found<'a>
    ensures gives { found_view result ≡ expression.target (found_view found.entry) }
    ensures declared { is_declared result ≡ true }
    ensures resolved { (structs : List Shape) → IsFoundResolved structs found.entry → IsFoundResolved structs result }
{
    match found {
        Found::Nothing => Found::Nothing,
        Found::Int => Found::Nothing,
        Found::Bool => Found::Nothing,
        Found::To(target) => Found::Of(target),
        Found::Of(ty) => match ty {
            CType::Int => Found::Nothing,
            CType::Bool => Found::Nothing,
            CType::Pointer(target) => Found::Of(target),
            CType::Named(_) => Found::Nothing,
            CType::Array(_, _) => Found::Nothing,
        },
    }
}

/// The type of an array's elements.
pub fn element_of<'a>(found: Found<'a>) -> Found<'a>
    ensures gives { found_view result ≡ spec.element (found_view found.entry) }
    ensures declared { is_declared result ≡ true }
    ensures resolved { (structs : List Shape) → IsFoundResolved structs found.entry → IsFoundResolved structs result }
{
    match found {
        Found::Nothing => Found::Nothing,
        Found::Int => Found::Nothing,
        Found::Bool => Found::Nothing,
        Found::To(_) => Found::Nothing,
        Found::Of(ty) => match ty {
            CType::Int => Found::Nothing,
            CType::Bool => Found::Nothing,
            CType::Pointer(_) => Found::Nothing,
            CType::Named(_) => Found::Nothing,
            CType::Array(element, _) => Found::Of(element),
        },
    }
}

/// The type of a pointer to a place of the type.
pub fn pointer_to<'a>(found: Found<'a>) -> Found<'a>
    requires { is_declared found ≡ true }
    ensures gives { found_view result ≡ option_map pointer (found_view found.entry) }
    ensures resolved { (structs : List Shape) → IsFoundResolved structs found.entry → IsFoundResolved structs result }
{
    match found {
        Found::Nothing => Found::Nothing,
        Found::Int => Found::Nothing,
        Found::Bool => Found::Nothing,
        Found::To(_) => Found::Nothing,
        Found::Of(ty) => Found::To(ty),
    }
}

/// The type that an operator before its operand gives.
pub fn unary_type<'a>(op: UnaryOp) -> Found<'a>
    ensures gives { found_view result ≡ Some (spec.unary_type op) }
    ensures resolved { (structs : List Shape) → IsFoundResolved structs result }
{
    match op {
        UnaryOp::Negate => Found::Int,
        UnaryOp::Not => Found::Bool,
    }
}

/// The type that an operator between two operands gives.
pub fn binary_type<'a>(op: BinaryOp) -> Found<'a>
    ensures gives { found_view result ≡ Some (spec.binary_type op) }
    ensures resolved { (structs : List Shape) → IsFoundResolved structs result }
{
    match op {
        BinaryOp::Add => Found::Int,
        BinaryOp::Sub => Found::Int,
        BinaryOp::Mul => Found::Int,
        BinaryOp::Div => Found::Int,
        BinaryOp::Rem => Found::Int,
        BinaryOp::Lt => Found::Bool,
        BinaryOp::Le => Found::Bool,
        BinaryOp::Gt => Found::Bool,
        BinaryOp::Ge => Found::Bool,
        BinaryOp::Eq => Found::Bool,
        BinaryOp::Ne => Found::Bool,
        BinaryOp::And => Found::Bool,
        BinaryOp::Or => Found::Bool,
    }
}

// The type of the declaration of a number, where there is one.
fn declared_type<'a>(decls: &'a [Decl], number: usize) -> Found<'a>
    ensures gives { found_view result ≡ option_map (λ d. d.ty) (slice_get (map typed_of (map decl_view decls.now)) number) }
    ensures declared { is_declared result ≡ true }
    ensures resolved { (structs : List Shape) → All (λ d. IsSized structs d.ty) (map decl_view decls.now) → IsFoundResolved structs result }
{
    if number < decls.len() {
        Found::Of(&decls[number].ty)
    } else {
        Found::Nothing
    }
}

/// The type of the field of a number, where a type is a struct.
pub fn field_type<'a>(unit: &Measured<'a>, found: Found<'a>, number: u32) -> Found<'a>
    requires { IsFoundResolved (shapes (unit_view unit.now)) found }
    ensures gives { found_view result ≡ spec.field_type (shapes (unit_view unit.now)) (found_view found.entry) number }
    ensures declared { is_declared result ≡ true }
    ensures resolved { IsFoundResolved (shapes (unit_view unit.now)) result }
{
    match found {
        Found::Nothing => Found::Nothing,
        Found::Int => Found::Nothing,
        Found::Bool => Found::Nothing,
        Found::To(_) => Found::Nothing,
        Found::Of(ty) => match ty {
            CType::Int => Found::Nothing,
            CType::Bool => Found::Nothing,
            CType::Pointer(_) => Found::Nothing,
            CType::Named(name) => struct_field(unit, name, number),
            CType::Array(_, _) => Found::Nothing,
        },
    }
}

// The struct of a number.
fn struct_at(structs: &[StructDef], number: u32) -> &StructDef
    requires { number < length structs.now }
    ensures { result.now ≡ get_or structs.now number result.now }
{
    &structs[number as usize]
}

// The fields of a struct.
fn fields_of(owner: &StructDef) -> &[Decl]
    ensures { result.now ≡ owner.now.fields.items }
{
    &owner.fields
}

// The type of the field of a number in the struct of a resolved name.
fn struct_field<'a>(unit: &Measured<'a>, name: &Name, number: u32) -> Found<'a>
    requires { IsResolved (shapes (unit_view unit.now)) (named (name_view name.now)) }
    ensures gives { found_view result ≡ declared_at (shape_fields (shapes (unit_view unit.now)) name.now.bytes.items) number }
    ensures declared { is_declared result ≡ true }
    ensures resolved { IsFoundResolved (shapes (unit_view unit.now)) result }
{
    let owner = struct_at(&unit.unit().structs, name.number);
    declared_type(fields_of(owner), number as usize)
}

// The type of a parameter or of a local behind them.
fn local_type<'a>(function: &'a Function, number: usize) -> Found<'a>
    ensures gives { found_view result ≡ declared_at (map typed_of ((function_view function.now).params ++ locals_of (function_view function.now).body)) number }
    ensures declared { is_declared result ≡ true }
    ensures resolved { (structs : List Shape) → IsSizedFunction structs (function_view function.now) → IsFoundResolved structs result }
{
    let count = function.params.len();
    if number < count {
        declared_type(&function.params, number)
    } else {
        match &function.body {
            Body::Code(code) => declared_type(&code.locals, number - count),
            Body::Asm(_) => Found::Nothing,
        }
    }
}

// The type of a variable of a function, by its kind and number.
fn variable_in<'a>(
    unit: &Measured<'a>,
    function: &'a Function,
    kind: Kind,
    number: u32,
) -> Found<'a>
    requires { IsSizedFunction (shapes (unit_view unit.now)) (function_view function.now) }
    ensures gives { found_view result ≡ option_map (λ d. d.ty) (variable_at (env_in (unit_view unit.now) (function_view function.now)) kind number) }
    ensures declared { is_declared result ≡ true }
    ensures resolved { IsFoundResolved (shapes (unit_view unit.now)) result }
{
    match kind {
        Kind::Unresolved => Found::Nothing,
        Kind::Struct => Found::Nothing,
        Kind::Field => Found::Nothing,
        Kind::Global => declared_type(&unit.unit().globals, number as usize),
        Kind::Local => local_type(function, number as usize),
        Kind::Function => Found::Nothing,
        Kind::Primitive => Found::Nothing,
    }
}

/// The type of a variable in the function of a number, by its kind and number.
pub fn variable_type<'a>(unit: &Measured<'a>, function: u32, kind: Kind, number: u32) -> Found<'a>
    requires { function < length unit.now.functions.items }
    ensures gives { (f : CFunction) → IsAt function (unit_view unit.now) f → found_view result ≡ spec.variable_type (unit_view unit.now) f kind number }
    ensures declared { is_declared result ≡ true }
    ensures resolved { IsFoundResolved (shapes (unit_view unit.now)) result }
{
    variable_in(
        unit,
        &unit.unit().functions[function as usize],
        kind,
        number,
    )
}
