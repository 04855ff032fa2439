// Expressions elaborated: the typed tree and the type of each, made in one walk.

ghost use Rattle.std.specs.Prelude.{◌≡◌, IfOk, List, None, Some, if◌then◌else◌, option_map, true};
ghost use Rattle.c0_tree.specs.Tree.{var};
ghost use Rattle.c0_tree.specs.View.{expr_view, name_view};
ghost use Rattle.c0_meaning.specs.Env.{Shape};
ghost use Rattle.c0_meaning.specs.Expression.{is_lvalue};
ghost use Rattle.c0_meaning.specs.Form.{found_view, is_declared};
ghost use Rattle.c0_meaning.specs.Sound.{shapes};
ghost use Rattle.c0_meaning.specs.Ty.{pointer};
ghost use Rattle.c0_meaning.specs.TypeAt as types;
ghost use Rattle.c0_meaning.specs.TypeAt.{IsFoundResolved};
ghost use Rattle.c0_typed.specs.Elaborated.{IsAddressOf, IsElaborated, IsElaboratedElement, IsElaboratedField, IsTargetOf, HasTreeAndType};
ghost use Rattle.c0_typed.specs.SeenEnv.{unit_seen};
ghost use Rattle.c0_typed.specs.Tree as tree;
ghost use Rattle.c0_typed.specs.Typed as spec;
ghost use Rattle.c0_typed.specs.View.{typed_expr_view};

use crate::build::written_number;
use crate::seen_function::SeenFunction;
use crate::tree::TypedExpr;
use crate::{build, place};
use c0_meaning::form::Found;
use c0_meaning::shape::is_place;
use c0_meaning::type_at::{
    binary_type, element_of, field_type, pointer_to, target_of, unary_type, variable_type,
};
use c0_tree::{BinaryOp, Expr, Name, UnaryOp};
use std::alloc::{AllocError, Global};

/// An expression of a function: its typed tree, and its type.
#[derive(Drop)]
pub struct Elaborated<'a> {
    /// The typed tree.
    pub tree: TypedExpr,
    /// The type.
    pub ty: Found<'a>,
}

// A word that is known, of a type.
fn constant<'a>(word: u32, ty: Found<'a>) -> Elaborated<'a>
    ensures means { HasTreeAndType (tree.constant word) (found_view ty.entry) result }
    ensures resolved { (structs : List Shape) → IsFoundResolved structs ty.entry → IsFoundResolved structs result.ty }
{
    Elaborated {
        tree: TypedExpr::Constant(word),
        ty,
    }
}

// A variable.
fn variable<'a>(function: &SeenFunction<'a>, name: &Name) -> Elaborated<'a>
    ensures { IsElaborated function.now (var (name_view name.now)) result }
{
    Elaborated {
        tree: place::variable(function, name.kind, name.number),
        ty: variable_type(function.unit.unit, function.number, name.kind, name.number),
    }
}

// The field of a number.
fn field<'a>(
    alloc: Global,
    function: &SeenFunction<'a>,
    owner: Elaborated<'a>,
    number: u32,
) -> Result<Elaborated<'a>, AllocError>
    requires { IsFoundResolved (shapes (unit_seen function.now)) owner.ty }
    ensures { IfOk result (IsElaboratedField function.now owner.entry number) }
{
    let bytes = place::field_bytes(function, owner.ty, number);
    let ty = field_type(function.unit.unit, owner.ty, number);
    Ok(Elaborated {
        tree: build::part(alloc, owner.tree, bytes)?,
        ty,
    })
}

// What a pointer points to.
fn target<'a>(alloc: Global, pointer: Elaborated<'a>) -> Result<Elaborated<'a>, AllocError>
    ensures { IfOk result (IsTargetOf pointer.entry) }
{
    let ty = target_of(pointer.ty);
    Ok(Elaborated {
        tree: build::target(alloc, pointer.tree)?,
        ty,
    })
}

// An element of an array: a written number below the length needs no test.
fn element<'a>(
    alloc: Global,
    function: &SeenFunction<'a>,
    array: Elaborated<'a>,
    index: TypedExpr,
    number: Option<u32>,
) -> Result<Elaborated<'a>, AllocError>
    requires { IsFoundResolved (shapes (unit_seen function.now)) array.ty }
    ensures { IfOk result (IsElaboratedElement function.now array.entry (typed_expr_view index) number) }
{
    let elements = place::elements_of(function, array.ty);
    let ty = element_of(array.ty);
    Ok(Elaborated {
        tree: build::element(alloc, elements, array.tree, index, number)?,
        ty,
    })
}

// The type of the address of an expression of a type: only a place has one.
fn address_type<'a>(expr: &Expr, found: Found<'a>) -> Found<'a>
    requires { is_lvalue (expr_view expr.now) ≡ true → is_declared found ≡ true }
    ensures gives { found_view result ≡ if is_lvalue (expr_view expr.now) then option_map pointer (found_view found.entry) else None }
    ensures resolved { (structs : List Shape) → IsFoundResolved structs found.entry → IsFoundResolved structs result }
{
    if is_place(expr) {
        pointer_to(found)
    } else {
        Found::Nothing
    }
}

// The address of a place, which is elaborated so.
fn address<'a>(
    alloc: Global,
    expr: &Expr,
    place: Elaborated<'a>,
) -> Result<Elaborated<'a>, AllocError>
    requires { is_lvalue (expr_view expr.now) ≡ true → is_declared place.ty ≡ true }
    ensures { IfOk result (IsAddressOf (expr_view expr.now) place.entry) }
{
    let ty = address_type(expr, place.ty);
    Ok(Elaborated {
        tree: build::address(alloc, place.tree)?,
        ty,
    })
}

// An operator before its operand.
fn unary<'a>(
    alloc: Global,
    op: UnaryOp,
    operand: TypedExpr,
    number: Option<u32>,
) -> Result<Elaborated<'a>, AllocError>
    ensures means { IfOk result (HasTreeAndType (spec.typed_unary op (typed_expr_view operand) number) (Some (types.unary_type op))) }
    ensures resolved { (structs : List Shape) → IfOk result (λ x. IsFoundResolved structs x.ty) }
{
    Ok(Elaborated {
        tree: build::unary(alloc, op, operand, number)?,
        ty: unary_type(op),
    })
}

// An operator between its operands.
fn binary<'a>(
    alloc: Global,
    op: BinaryOp,
    left: TypedExpr,
    right: TypedExpr,
) -> Result<Elaborated<'a>, AllocError>
    ensures means { IfOk result (HasTreeAndType (spec.typed_binary op (typed_expr_view left) (typed_expr_view right)) (Some (types.binary_type op))) }
    ensures resolved { (structs : List Shape) → IfOk result (λ x. IsFoundResolved structs x.ty) }
{
    Ok(Elaborated {
        tree: build::binary(alloc, op, left, right)?,
        ty: binary_type(op),
    })
}

/// The typed tree of an expression of a function, and its type: each part is walked once.
#[tactic(auto, using(crate::proofs::KeptTypes::resolved))]
pub fn elaborate<'a>(
    alloc: Global,
    function: &SeenFunction<'a>,
    expr: &Expr,
) -> Result<Elaborated<'a>, AllocError>
    ensures { IfOk result (IsElaborated function.now (expr_view expr.now)) }
{
    match expr {
        Expr::Num(_, number) => Ok(constant(*number, Found::Int)),
        Expr::True(_) => Ok(constant(1, Found::Bool)),
        Expr::False(_) => Ok(constant(0, Found::Bool)),
        Expr::Null(_) => Ok(constant(0, Found::Nothing)),
        Expr::Var(name) => Ok(variable(function, name)),
        Expr::Field(_, owner, name) => {
            let owner = elaborate(alloc, function, owner)?;
            field(alloc, function, owner, name.number)
        }
        Expr::Arrow(_, owner, name) => {
            let pointer = elaborate(alloc, function, owner)?;
            let owner = target(alloc, pointer)?;
            field(alloc, function, owner, name.number)
        }
        Expr::Index(_, array, index) => {
            let place = elaborate(alloc, function, array)?;
            let at = elaborate(alloc, function, index)?.tree;
            element(alloc, function, place, at, written_number(index))
        }
        Expr::Deref(_, pointer) => target(alloc, elaborate(alloc, function, pointer)?),
        Expr::AddressOf(_, place) => address(alloc, place, elaborate(alloc, function, place)?),
        Expr::Unary(_, op, operand) => {
            let typed = elaborate(alloc, function, operand)?.tree;
            unary(alloc, *op, typed, written_number(operand))
        }
        Expr::Binary(_, op, left, right) => {
            let left = elaborate(alloc, function, left)?.tree;
            let right = elaborate(alloc, function, right)?.tree;
            binary(alloc, *op, left, right)
        }
    }
}
