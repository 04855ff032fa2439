// The check of the parts of statements: expressions where a type may be asked, and left sides.

ghost use Rattle.std.specs.Prelude.{◌≡◌};
ghost use Rattle.c0_meaning.specs.Expression as expression;
ghost use Rattle.c0_meaning.specs.Statement as spec;
ghost use Rattle.c0_tree.specs.View.{expr_view};
ghost use Rattle.c0_meaning.specs.Form.{found_view};
ghost use Rattle.c0_body_check.specs.Check.{IsByRule, by_both};
ghost use Rattle.c0_name_check.specs.Met.{Meets, met_view};
ghost use Rattle.c0_body_check.specs.Scope.{Knows, env_view};
ghost use Rattle.c0_body_check.specs.Stmts.{ChecksGiven, ChecksLeft, ChecksTested};

use crate::check::{check, check_asked};
use crate::rules::{is_nothing, is_scalar_form, wrong};
use crate::scope::Scope;
use c0_meaning::form::{Form, Found, same_form};
use c0_meaning::need::is_deep;
use c0_meaning::shape::{is_place, span_of};
use c0_name_check::met::{Fault, Mistake, meet_at, meet_if};
use c0_tree::{Expr, Span};

/// Another type than is asked is met, where both are there.
pub fn meet_other(want: Form<'_>, form: Form<'_>, span: Span, least: &mut Option<Fault>)
    ensures { Meets least.old least.new (expression.own (by_both want.entry form.entry (spec.same_rule span))) }
{
    if is_nothing(want) || is_nothing(form) {} else if same_form(want, form) {} else {
        meet_at(least, Mistake::WrongType, span);
    }
}

/// An expression where a type may be asked: a right side, an argument, a condition, a returned expression.
pub fn check_given(scope: &Scope<'_>, want: Found<'_>, expr: &mut Expr, least: &mut Option<Fault>)
    requires { Knows scope.now }
    ensures { ChecksGiven (env_view scope.now) (found_view want.entry) (expr_view expr.old) (met_view least.old) (met_view least.new) (expr_view expr.new) }
{
    let span = span_of(expr);
    let form = check_asked(scope, want, expr, least).form();
    meet_other(want.form(), form, span, least);
}

/// A condition or a returned expression, of which this type is asked.
pub fn check_tested(scope: &Scope<'_>, want: Found<'_>, expr: &mut Expr, least: &mut Option<Fault>)
    requires { Knows scope.now }
    ensures { ChecksTested (env_view scope.now) (found_view want.entry) (expr_view expr.old) (met_view least.old) (met_view least.new) (expr_view expr.new) }
{
    let span = span_of(expr);
    let deep = is_deep(expr);
    check_given(scope, want, expr, least);
    meet_if(least, deep, Mistake::TooDeep, span);
}

// A left side: whether it is a place, where it stands, and its type.
fn left<'a>(place: bool, span: Span, found: Found<'a>, least: &mut Option<Fault>) -> Found<'a>
    ensures { IsByRule result least.old least.new (expression.rule_on_one (found_view found.entry) (spec.left_rule place span)) }
{
    let form = found.form();
    if is_nothing(form) {
        Found::Nothing
    } else if !place {
        wrong(least, Mistake::NotAPlace, span)
    } else if is_scalar_form(form) {
        found
    } else {
        wrong(least, Mistake::WrongType, span)
    }
}

/// A left side, and the type that it asks of the right side.
pub fn check_left<'a>(scope: &Scope<'a>, expr: &mut Expr, least: &mut Option<Fault>) -> Found<'a>
    requires { Knows scope.now }
    ensures { ChecksLeft (env_view scope.now) (expr_view expr.old) (found_view result) (met_view least.old) (met_view least.new) (expr_view expr.new) }
{
    let place = is_place(expr);
    let span = span_of(expr);
    let found = check(scope, expr, least);
    left(place, span, found, least)
}
