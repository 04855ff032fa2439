// The check of expressions: one pass that types, resolves names in place, and keeps the least fault.

ghost use Rattle.std.specs.Prelude.{◌≡◌, IsTrue};
ghost use Rattle.c0_meaning.specs.Expression as spec;
ghost use Rattle.c0_tree.specs.View.{expr_view};
ghost use Rattle.c0_body_check.specs.Check.{Checks, FindsAsked};
ghost use Rattle.c0_name_check.specs.Met.{met_view};
ghost use Rattle.c0_meaning.specs.Form.{found_view, is_declared};
ghost use Rattle.c0_body_check.specs.Scope.{Knows, env_view};

use crate::rules::{
    address, arrow, binary, deref, index, member, number_field, place_field, target, unary,
    variable, wrong,
};
use crate::scope::Scope;
use crate::shape::is_local;
use c0_meaning::form::{Found, is_pointer_form};
use c0_meaning::laws::meeting_is_free_of_order;
use c0_meaning::shape::{compares, is_null, is_place, span_of};
use c0_name_check::met::{Fault, Mistake};
use c0_tree::{BinaryOp, Expr};

// Whether an expression is a `null` of which a particular pointer type is asked.
fn is_filled(want: Found<'_>, expr: &Expr) -> bool
    ensures { result ≡ spec.is_null_for (found_view want.entry) (expr_view expr.now) }
{
    is_null(expr) && is_pointer_form(want.form())
}

// The type that an operator asks of an operand, by the other's.
fn asked_by<'a>(op: BinaryOp, other: Found<'a>) -> Found<'a>
    ensures { found_view result ≡ spec.operand_type op (found_view other.entry) }
{
    if compares(op) { other } else { Found::Nothing }
}

/// The type of an expression, whose names are resolved. The least fault is kept.
#[cycle(expression)]
pub fn check<'a>(scope: &Scope<'a>, expr: &mut Expr, least: &mut Option<Fault>) -> Found<'a>
    requires { Knows scope.now }
    ensures checks { Checks (env_view scope.now) (expr_view expr.old) (found_view result) (met_view least.old) (met_view least.new) (expr_view expr.new) }
    ensures declared { IsTrue (spec.is_lvalue (expr_view expr.old)) → IsTrue (is_declared result) }
{
    match expr {
        Expr::Num(_, _) => Found::Int,
        Expr::True(_) => Found::Bool,
        Expr::False(_) => Found::Bool,
        Expr::Null(span) => wrong(least, Mistake::WrongType, *span),
        Expr::Var(name) => variable(scope, name, least),
        Expr::Field(span, part, name) => {
            let place = is_place(part);
            let at = span_of(part);
            let form = check(scope, part, least).form();
            let found = member(scope, form, name.bytes.as_slice());
            number_field(name, found);
            place_field(*span, place, at, name.span, found, form, least)
        }
        Expr::Arrow(span, part, name) => {
            let form = check(scope, part, least).form();
            let found = member(scope, target(form), name.bytes.as_slice());
            number_field(name, found);
            arrow(*span, name.span, found, form, least)
        }
        Expr::Index(span, part, place) => {
            let is_there = is_place(part);
            let at = span_of(part);
            let form = check(scope, part, least).form();
            let number = check(scope, place, least).form();
            index(*span, is_there, at, form, number, least)
        }
        Expr::Deref(span, part) => {
            let form = check(scope, part, least).form();
            deref(*span, form, least)
        }
        Expr::AddressOf(_, part) => {
            let place = is_place(part);
            let local = is_local(scope, part);
            let at = span_of(part);
            let found = check(scope, part, least);
            address(place, local, at, found, least)
        }
        Expr::Unary(span, op, part) => {
            let form = check(scope, part, least).form();
            unary(*span, *op, form, least)
        }
        Expr::Binary(span, op, left, right) => {
            if is_null(left) {
                meeting_is_free_of_order();
                let beside = check(scope, right, least);
                let found = check_asked(scope, asked_by(*op, beside), left, least);
                binary(*span, *op, found.form(), beside.form(), least)
            } else {
                let found = check(scope, left, least);
                let beside = check_asked(scope, asked_by(*op, found), right, least);
                binary(*span, *op, found.form(), beside.form(), least)
            }
        }
    }
}

/// The same of an expression of which a type may be asked: a `null` has a pointer type that is asked.
#[cycle(expression)]
pub fn check_asked<'a>(
    scope: &Scope<'a>,
    want: Found<'a>,
    expr: &mut Expr,
    least: &mut Option<Fault>,
) -> Found<'a>
    requires { Knows scope.now }
    ensures { FindsAsked (env_view scope.now) want.entry expr.old result least.old least.new expr.new }
{
    if is_filled(want, expr) {
        want
    } else {
        check(scope, expr, least)
    }
}
