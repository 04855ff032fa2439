// Which locals of a function may be read before they are assigned.

ghost use Rattle.std.specs.Prelude.{◌≡◌, map};
ghost use Rattle.c0_typed.specs.View.{typed_expr_view, typed_stmt_view, typed_stmts_view};
ghost use Rattle.c0_stmt_code.specs.Emit.{cleared_in};
ghost use Rattle.c0_stmt_code.specs.TypedLive as spec;

use c0_typed::{LocalType, TypedCode, TypedExpr, TypedStmt};

// Whether the parameter or local of a number stands in an expression.
fn reads(expr: &TypedExpr, variable: u64) -> bool
    ensures { result ≡ spec.typed_reads (typed_expr_view expr.now) variable }
{
    match expr {
        TypedExpr::Global(_) => false,
        TypedExpr::Local(number, _) => u64::from(*number) == variable,
        TypedExpr::Part(place, _) => reads(place, variable),
        TypedExpr::Element(place, index, _) => reads(place, variable) || reads(index, variable),
        TypedExpr::Target(pointer) => reads(pointer, variable),
        TypedExpr::Constant(_) => false,
        TypedExpr::Address(place) => reads(place, variable),
        TypedExpr::Negative(operand) => reads(operand, variable),
        TypedExpr::Negation(operand) => reads(operand, variable),
        TypedExpr::Plain(_, left, right) => reads(left, variable) || reads(right, variable),
        TypedExpr::Quotient(left, right) => reads(left, variable) || reads(right, variable),
        TypedExpr::Remainder(left, right) => reads(left, variable) || reads(right, variable),
        TypedExpr::Both(left, right) => reads(left, variable) || reads(right, variable),
        TypedExpr::Either(left, right) => reads(left, variable) || reads(right, variable),
    }
}

// Whether one of these expressions reads a variable.
fn any_reads(exprs: &[TypedExpr], variable: u64) -> bool
    ensures { result ≡ spec.typed_any_reads (map typed_expr_view exprs.now) variable }
{
    let mut any = false;
    for expr in exprs {
        any = any || reads(expr, variable);
    }
    any
}

// Whether a place is the variable of a number itself.
fn is_that_local(place: &TypedExpr, variable: u64) -> bool
    ensures { result ≡ spec.is_that_local (typed_expr_view place.now) variable }
{
    match place {
        TypedExpr::Global(_) => false,
        TypedExpr::Local(number, _) => u64::from(*number) == variable,
        TypedExpr::Part(_, _) => false,
        TypedExpr::Element(_, _, _) => false,
        TypedExpr::Target(_) => false,
        TypedExpr::Constant(_) => false,
        TypedExpr::Address(_) => false,
        TypedExpr::Negative(_) => false,
        TypedExpr::Negation(_) => false,
        TypedExpr::Plain(_, _, _) => false,
        TypedExpr::Quotient(_, _) => false,
        TypedExpr::Remainder(_, _) => false,
        TypedExpr::Both(_, _) => false,
        TypedExpr::Either(_, _) => false,
    }
}

// Whether a variable is read where the place is found that an expression is: a variable is found without being read.
fn reads_to_find(place: &TypedExpr, variable: u64) -> bool
    ensures { result ≡ spec.typed_reads_to_find (typed_expr_view place.now) variable }
{
    match place {
        TypedExpr::Global(_) => false,
        TypedExpr::Local(_, _) => false,
        TypedExpr::Part(_, _) => reads(place, variable),
        TypedExpr::Element(_, _, _) => reads(place, variable),
        TypedExpr::Target(_) => reads(place, variable),
        TypedExpr::Constant(_) => false,
        TypedExpr::Address(_) => reads(place, variable),
        TypedExpr::Negative(_) => reads(place, variable),
        TypedExpr::Negation(_) => reads(place, variable),
        TypedExpr::Plain(_, _, _) => reads(place, variable),
        TypedExpr::Quotient(_, _) => reads(place, variable),
        TypedExpr::Remainder(_, _) => reads(place, variable),
        TypedExpr::Both(_, _) => reads(place, variable),
        TypedExpr::Either(_, _) => reads(place, variable),
    }
}

// Whether a variable is live where a value goes to a place next.
fn is_live_at_place(place: &TypedExpr, variable: u64, behind: bool) -> bool
    ensures { result ≡ spec.typed_live_at_place (typed_expr_view place.now) variable behind }
{
    reads_to_find(place, variable) || !is_that_local(place, variable) && behind
}

// Whether a variable is live before a statement.
#[cycle(live)]
fn is_live(stmt: &TypedStmt, variable: u64, behind: bool) -> bool
    ensures { result ≡ spec.typed_is_live (typed_stmt_view stmt.now) variable behind }
{
    match stmt {
        TypedStmt::Assign { place, value } => {
            reads(value, variable) || is_live_at_place(place, variable, behind)
        }
        TypedStmt::Call { args, place, .. } => {
            any_reads(args, variable) || is_live_at_place(place, variable, behind)
        }
        TypedStmt::New { place, .. } => is_live_at_place(place, variable, behind),
        TypedStmt::If { test, yes, no } => {
            reads(test, variable)
                || are_live(yes, variable, behind)
                || are_live(no, variable, behind)
        }
        TypedStmt::While { test, body } => {
            reads(test, variable) || behind || are_live(body, variable, false)
        }
    }
}

// Whether a variable is live before statements.
#[cycle(live)]
fn are_live(stmts: &[TypedStmt], variable: u64, behind: bool) -> bool
    ensures { result ≡ spec.typed_are_live (typed_stmts_view stmts.now) variable behind }
{
    match stmts {
        [] => behind,
        [first, rest @ ..] => is_live(first, variable, are_live(rest, variable, behind)),
    }
}

// Whether all locals are scalars, of a word each.
fn are_scalars(locals: &[LocalType]) -> bool
    ensures { result ≡ spec.are_scalars locals.now }
{
    let mut all = true;
    for local in locals {
        all = all && local.scalar;
    }
    all
}

/// Whether the local of a number is 0 behind the begin of a function: where all locals are scalars, it is where it may be read before it
/// is assigned; else all are.
pub fn is_cleared(body: &TypedCode, variable: u64) -> bool
    ensures { result ≡ cleared_in body.now variable }
{
    !are_scalars(&body.locals) || are_live(&body.stmts, variable, reads(&body.answer, variable))
}
