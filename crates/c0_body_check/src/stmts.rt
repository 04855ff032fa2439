// The check of statements.

ghost use Rattle.std.specs.Prelude.{◌≡◌, map};
ghost use Rattle.c0_meaning.specs.DeclaredTypes.{type_faults};
ghost use Rattle.c0_meaning.specs.Env.{callee_named};
ghost use Rattle.c0_meaning.specs.Expression.{resolved};
ghost use Rattle.c0_meaning.specs.Fault.{kept_all};
ghost use Rattle.c0_meaning.specs.Resolved.{resolved_type};
ghost use Rattle.c0_meaning.specs.Statement as spec;
ghost use Rattle.c0_tree.specs.View.{expr_view, name_view, stmt_view, stmts_view, type_view};
ghost use Rattle.c0_name_check.specs.Met.{Meets, met_view};
ghost use Rattle.c0_meaning.specs.Ty.{bool, pointer};
ghost use Rattle.c0_meaning.specs.Form.{found_view, ty_view};
ghost use Rattle.c0_body_check.specs.Scope.{Knows, env_view};
ghost use Rattle.c0_body_check.specs.Stmts.{faults_of_new, faults_of_call, ChecksStmt, ChecksStmts, choice_faults, loop_faults, resolved_of_stmts};

use crate::calls::{check_args, meet_callee, name_callee};
use crate::parts::{check_given, check_left, check_tested, meet_other};
use crate::scope::{Scope, find_callee};
use c0_meaning::form::{Form, Found};
use c0_meaning::laws::meeting_is_free_of_order;
use c0_meaning::need::{is_deep_assignment, is_deep_call, is_deep_object};
use c0_name_check::met::{Fault, Mistake, meet_if};
use c0_name_check::types::check_type;
use c0_tree::{CType, Expr, Name, Span, Stmt};

// `place = value;`
fn check_assign(
    scope: &Scope<'_>,
    span: Span,
    place: &mut Expr,
    value: &mut Expr,
    least: &mut Option<Fault>,
)
    requires { Knows scope.now }
    ensures met { Meets least.old least.new (spec.assign_faults (env_view scope.now) span (expr_view place.old) (expr_view value.old)) }
    ensures place { expr_view place.new ≡ resolved (env_view scope.now) (expr_view place.old) }
    ensures value { expr_view value.new ≡ resolved (env_view scope.now) (expr_view value.old) }
{
    let deep = is_deep_assignment(place, value);
    let want = check_left(scope, place, least);
    check_given(scope, want, value, least);
    meet_if(least, deep, Mistake::TooDeep, span);
}

// `place = function(args);`
fn check_call(
    scope: &Scope<'_>,
    span: Span,
    place: &mut Expr,
    call_span: Span,
    function: &mut Name,
    args: &mut [Expr],
    least: &mut Option<Fault>,
)
    requires { Knows scope.now }
    ensures met { Meets least.old least.new (faults_of_call (env_view scope.now) span place.old call_span function.old args.old) }
    ensures place { expr_view place.new ≡ resolved (env_view scope.now) (expr_view place.old) }
    ensures function { name_view function.new ≡ spec.numbered_callee (name_view function.old) (callee_named (env_view scope.now) function.old.bytes.items) }
    ensures args { map expr_view args.new ≡ map (resolved (env_view scope.now)) (map expr_view args.old) }
{
    let deep = is_deep_call(place, args);
    let want = check_left(scope, place, least);
    let callee = find_callee(scope, function.bytes.as_slice());
    meet_callee(call_span, function, want.form(), args.len(), callee, least);
    name_callee(function, callee);
    check_args(scope, callee, args, least);
    meet_if(least, deep, Mistake::TooDeep, span);
}

// The type behind `new`.
fn check_object_type(scope: &Scope<'_>, ty: &mut CType, span: Span, least: &mut Option<Fault>)
    requires { Knows scope.now }
    ensures met { met_view least.new ≡ kept_all (met_view least.old) (type_faults (env_view scope.now).structs (type_view ty.old) span) }
    ensures named { type_view ty.new ≡ resolved_type (env_view scope.now).structs (type_view ty.old) }
{
    check_type(scope.struct_names, scope.struct_words, ty, span, least);
}

// A pointer to an object of a type is met, where another is asked.
fn meet_object(want: Found<'_>, ty: &CType, span: Span, least: &mut Option<Fault>)
    ensures { met_view least.new ≡ kept_all (met_view least.old) (spec.result_faults span (found_view want.entry) (pointer (ty_view ty.now))) }
{
    meet_other(want.form(), Form::Pointer(ty), span, least);
}

// `place = new ty;`
fn check_new(
    scope: &Scope<'_>,
    span: Span,
    place: &mut Expr,
    ty: &mut CType,
    ty_span: Span,
    least: &mut Option<Fault>,
)
    requires { Knows scope.now }
    ensures met { Meets least.old least.new (faults_of_new (env_view scope.now) span place.old ty.old ty_span) }
    ensures place { expr_view place.new ≡ resolved (env_view scope.now) (expr_view place.old) }
    ensures ty { type_view ty.new ≡ resolved_type (env_view scope.now).structs (type_view ty.old) }
{
    let deep = is_deep_object(place);
    meeting_is_free_of_order();
    let want = check_left(scope, place, least);
    meet_object(want, ty, ty_span, least);
    check_object_type(scope, ty, ty_span, least);
    meet_if(least, deep, Mistake::TooDeep, span);
}

// A condition.
fn check_condition(scope: &Scope<'_>, test: &mut Expr, least: &mut Option<Fault>)
    requires { Knows scope.now }
    ensures met { met_view least.new ≡ kept_all (met_view least.old) (spec.tested_faults (env_view scope.now) bool (expr_view test.old)) }
    ensures named { expr_view test.new ≡ resolved (env_view scope.now) (expr_view test.old) }
{
    check_tested(scope, Found::Bool, test, least);
}

/// Checks a statement: its names are resolved, and the least fault is kept.
#[cycle(statement)]
pub fn check_stmt(scope: &Scope<'_>, stmt: &mut Stmt, least: &mut Option<Fault>)
    requires { Knows scope.now }
    ensures { ChecksStmt (env_view scope.now) (stmt_view stmt.old) (met_view least.old) (met_view least.new) (stmt_view stmt.new) }
{
    match stmt {
        Stmt::Assign { span, place, value } => check_assign(scope, *span, place, value, least),
        Stmt::Call {
            span,
            place,
            call_span,
            function,
            args,
        } => check_call(
            scope,
            *span,
            place,
            *call_span,
            function,
            args.as_mut_slice(),
            least,
        ),
        Stmt::New {
            span,
            place,
            ty,
            ty_span,
        } => check_new(scope, *span, place, ty, *ty_span, least),
        Stmt::If {
            span: _span,
            test,
            yes,
            no,
        } => check_choice(scope, test, yes, no, least),
        Stmt::While {
            span: _span,
            test,
            body,
        } => check_loop(scope, test, body, least),
    }
}

// `if (test) { yes } else { no }`
#[cycle(statement)]
fn check_choice(
    scope: &Scope<'_>,
    test: &mut Expr,
    yes: &mut Vec<Stmt>,
    no: &mut Vec<Stmt>,
    least: &mut Option<Fault>,
)
    requires { Knows scope.now }
    ensures met { Meets least.old least.new (choice_faults (env_view scope.now) (expr_view test.old) (stmts_view yes.old.items) (stmts_view no.old.items)) }
    ensures test { expr_view test.new ≡ resolved (env_view scope.now) (expr_view test.old) }
    ensures yes { stmts_view yes.new.items ≡ resolved_of_stmts (env_view scope.now) (stmts_view yes.old.items) }
    ensures no { stmts_view no.new.items ≡ resolved_of_stmts (env_view scope.now) (stmts_view no.old.items) }
{
    check_condition(scope, test, least);
    check_stmts(scope, yes.as_mut_slice(), least);
    check_stmts(scope, no.as_mut_slice(), least);
}

// `while (test) { body }`
#[cycle(statement)]
fn check_loop(scope: &Scope<'_>, test: &mut Expr, body: &mut Vec<Stmt>, least: &mut Option<Fault>)
    requires { Knows scope.now }
    ensures met { met_view least.new ≡ kept_all (met_view least.old) (loop_faults (env_view scope.now) (expr_view test.old) (stmts_view body.old.items)) }
    ensures test { expr_view test.new ≡ resolved (env_view scope.now) (expr_view test.old) }
    ensures body { stmts_view body.new.items ≡ resolved_of_stmts (env_view scope.now) (stmts_view body.old.items) }
{
    check_condition(scope, test, least);
    check_stmts(scope, body.as_mut_slice(), least);
}

/// Checks statements one after another.
#[cycle(statement)]
pub fn check_stmts(scope: &Scope<'_>, stmts: &mut [Stmt], least: &mut Option<Fault>)
    requires { Knows scope.now }
    ensures { ChecksStmts (env_view scope.now) (stmts_view stmts.old) (met_view least.old) (met_view least.new) (stmts_view stmts.new) }
{
    for stmt in stmts.iter_mut() {
        check_stmt(scope, stmt, least);
    }
}
