// The nodes of the typed tree, of their parts.

ghost use Rattle.std.specs.Prelude.{◌≡◌, IfOk};
ghost use Rattle.c0_tree.specs.View.{expr_view};
ghost use Rattle.c0_typed.specs.Tree as tree;
ghost use Rattle.c0_typed.specs.Typed as spec;
ghost use Rattle.c0_typed.specs.Typed.{typed_binary, typed_element, typed_negative, typed_unary};
ghost use Rattle.c0_typed.specs.View.{typed_expr_view};

use crate::sorted::{Order, Plain};
use crate::tree::{Elements, TypedExpr};
use c0_tree::{BinaryOp, Expr, UnaryOp};
use std::alloc::{AllocError, Global};

/// The number that an expression is written as.
pub fn written_number(expr: &Expr) -> Option<u32>
    ensures { result ≡ spec.written_number (expr_view expr.now) }
{
    match expr {
        Expr::Num(_, number) => Some(*number),
        Expr::True(_) => None,
        Expr::False(_) => None,
        Expr::Null(_) => None,
        Expr::Var(_) => None,
        Expr::Field(_, _, _) => None,
        Expr::Arrow(_, _, _) => None,
        Expr::Index(_, _, _) => None,
        Expr::Deref(_, _) => None,
        Expr::AddressOf(_, _) => None,
        Expr::Unary(_, _, _) => None,
        Expr::Binary(_, _, _, _) => None,
    }
}

/// What stands so many bytes further than a place.
pub fn part(alloc: Global, place: TypedExpr, bytes: u32) -> Result<TypedExpr, AllocError>
    ensures { IfOk result (λ x. typed_expr_view x ≡ tree.part (typed_expr_view place) bytes) }
{
    Ok(TypedExpr::Part(Box::new(alloc, place)?, bytes))
}

/// What a pointer points to.
pub fn target(alloc: Global, pointer: TypedExpr) -> Result<TypedExpr, AllocError>
    ensures { IfOk result (λ x. typed_expr_view x ≡ tree.target (typed_expr_view pointer)) }
{
    Ok(TypedExpr::Target(Box::new(alloc, pointer)?))
}

/// The address of a place.
pub fn address(alloc: Global, place: TypedExpr) -> Result<TypedExpr, AllocError>
    ensures { IfOk result (λ x. typed_expr_view x ≡ tree.address (typed_expr_view place)) }
{
    Ok(TypedExpr::Address(Box::new(alloc, place)?))
}

// An element whose index is tested.
fn tested(
    alloc: Global,
    elements: Elements,
    place: TypedExpr,
    index: TypedExpr,
) -> Result<TypedExpr, AllocError>
    ensures { IfOk result (λ x. typed_expr_view x ≡ tree.element (typed_expr_view place) (typed_expr_view index) elements) }
{
    let place = Box::new(alloc, place)?;
    let index = Box::new(alloc, index)?;
    Ok(TypedExpr::Element(place, index, elements))
}

/// An element: a written number below the length needs no test.
pub fn element(
    alloc: Global,
    elements: Elements,
    place: TypedExpr,
    index: TypedExpr,
    number: Option<u32>,
) -> Result<TypedExpr, AllocError>
    ensures { IfOk result (λ x. typed_expr_view x ≡ typed_element elements (typed_expr_view place) (typed_expr_view index) number) }
{
    if let Some(number) = number {
        if number < elements.count {
            return part(alloc, place, number.wrapping_mul(elements.bytes));
        }
    }
    tested(alloc, elements, place, index)
}

// `-`: before a written number it makes a constant.
fn negative(alloc: Global, operand: TypedExpr, number: Option<u32>) -> Result<TypedExpr, AllocError>
    ensures { IfOk result (λ x. typed_expr_view x ≡ typed_negative (typed_expr_view operand) number) }
{
    match number {
        Some(number) => Ok(TypedExpr::Constant(number.wrapping_neg())),
        None => Ok(TypedExpr::Negative(Box::new(alloc, operand)?)),
    }
}

/// An operator before its operand.
pub fn unary(
    alloc: Global,
    op: UnaryOp,
    operand: TypedExpr,
    number: Option<u32>,
) -> Result<TypedExpr, AllocError>
    ensures { IfOk result (λ x. typed_expr_view x ≡ typed_unary op (typed_expr_view operand) number) }
{
    match op {
        UnaryOp::Negate => negative(alloc, operand, number),
        UnaryOp::Not => Ok(TypedExpr::Negation(Box::new(alloc, operand)?)),
    }
}

/// An operator between its operands.
pub fn binary(
    alloc: Global,
    op: BinaryOp,
    left: TypedExpr,
    right: TypedExpr,
) -> Result<TypedExpr, AllocError>
    ensures { IfOk result (λ x. typed_expr_view x ≡ typed_binary op (typed_expr_view left) (typed_expr_view right)) }
{
    let left = Box::new(alloc, left)?;
    let right = Box::new(alloc, right)?;
    match op {
        BinaryOp::Add => Ok(TypedExpr::Plain(Plain::Sum, left, right)),
        BinaryOp::Sub => Ok(TypedExpr::Plain(Plain::Difference, left, right)),
        BinaryOp::Mul => Ok(TypedExpr::Plain(Plain::Product, left, right)),
        BinaryOp::Div => Ok(TypedExpr::Quotient(left, right)),
        BinaryOp::Rem => Ok(TypedExpr::Remainder(left, right)),
        BinaryOp::Lt => Ok(TypedExpr::Plain(Plain::Order(Order::Less), left, right)),
        BinaryOp::Le => Ok(TypedExpr::Plain(Plain::Order(Order::LessOrEqual), left, right)),
        BinaryOp::Gt => Ok(TypedExpr::Plain(Plain::Order(Order::Greater), left, right)),
        BinaryOp::Ge => Ok(TypedExpr::Plain(Plain::Order(Order::GreaterOrEqual), left, right)),
        BinaryOp::Eq => Ok(TypedExpr::Plain(Plain::Equal, left, right)),
        BinaryOp::Ne => Ok(TypedExpr::Plain(Plain::Different, left, right)),
        BinaryOp::And => Ok(TypedExpr::Both(left, right)),
        BinaryOp::Or => Ok(TypedExpr::Either(left, right)),
    }
}
