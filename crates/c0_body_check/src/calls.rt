// The check of what is called, and of its arguments.

ghost use Rattle.std.specs.Prelude.{◌≡◌, Some, length, option_map, slice_get};
ghost use Rattle.c0_meaning.specs.Env.{scalar_ty};
ghost use Rattle.c0_meaning.specs.Statement as spec;
ghost use Rattle.c0_tree.specs.View.{name_view};
ghost use Rattle.c0_meaning.specs.Form.{form_view, found_view};
ghost use Rattle.c0_name_check.specs.Met.{Meets};
ghost use Rattle.c0_body_check.specs.Scope.{Knows, callee_view, env_view, signature_view};
ghost use Rattle.c0_body_check.specs.Stmts.{PassesArgs};

use crate::parts::{check_given, meet_other};
use crate::scope::{Callee, Scope};
use c0_meaning::form::{Form, Found};
use c0_name_check::met::{Fault, Mistake, meet_at, meet_if};
use c0_tree::{Expr, Function, Kind, Name, Scalar, Span};

// A primitive's type.
fn scalar_type<'a>(scalar: Scalar) -> Found<'a>
    ensures { found_view result ≡ Some (scalar_ty scalar) }
{
    match scalar {
        Scalar::Int => Found::Int,
        Scalar::Bool => Found::Bool,
    }
}

// The type of what is called.
fn answer_of<'a>(callee: Callee<'a>) -> Found<'a>
    ensures { found_view result ≡ Some (callee_view callee.entry).answer }
{
    match callee {
        Callee::Primitive(_, primitive) => scalar_type(primitive.answer),
        Callee::Function(_, function) => Found::Of(&function.answer),
    }
}

// How many arguments are asked.
fn param_count(callee: Callee<'_>) -> usize
    ensures { result ≡ length (callee_view callee.entry).params }
{
    match callee {
        Callee::Primitive(_, primitive) => primitive.args.len(),
        Callee::Function(_, function) => function.params.len(),
    }
}

// The type of a function's parameter of this number, if it has one.
fn function_param<'a>(function: &'a Function, index: usize) -> Found<'a>
    ensures { found_view result ≡ slice_get (signature_view function.now).params index }
{
    match function.params.get(index) {
        None => Found::Nothing,
        Some(decl) => Found::Of(&decl.ty),
    }
}

// The type that is asked of the argument of this number, if one is.
fn param_of<'a>(callee: Option<Callee<'a>>, index: usize) -> Found<'a>
    ensures { found_view result ≡ slice_get (spec.parameter_types (option_map callee_view callee.entry)) index }
{
    match callee {
        None => Found::Nothing,
        Some(Callee::Primitive(_, primitive)) => match primitive.args.get(index) {
            None => Found::Nothing,
            Some(scalar) => scalar_type(*scalar),
        },
        Some(Callee::Function(_, function)) => function_param(function, index),
    }
}

/// Gives a called name what it stands for.
pub fn name_callee(name: &mut Name, callee: Option<Callee<'_>>)
    ensures { name_view name.new ≡ spec.numbered_callee (name_view name.old) (option_map callee_view callee.entry) }
{
    match callee {
        None => {}
        Some(Callee::Primitive(number, _)) => {
            name.kind = Kind::Primitive;
            name.number = number;
        }
        Some(Callee::Function(number, _)) => {
            name.kind = Kind::Function;
            name.number = number;
        }
    }
}

/// Meets the faults of a name before `(`, of the number of arguments, and of the result, where a type may be asked.
pub fn meet_callee(
    span: Span,
    name: &Name,
    want: Form<'_>,
    count: usize,
    callee: Option<Callee<'_>>,
    least: &mut Option<Fault>,
)
    ensures { Meets least.old least.new (spec.callee_faults span (name_view name.now) (form_view want.entry) count (option_map callee_view callee.entry)) }
{
    match callee {
        None => meet_at(least, Mistake::UnknownName, name.span),
        Some(callee) => {
            meet_if(
                least,
                param_count(callee) != count,
                Mistake::WrongCount,
                span,
            );
            meet_other(want, answer_of(callee).form(), span, least);
        }
    }
}

/// Checks arguments for what is called.
pub fn check_args(
    scope: &Scope<'_>,
    callee: Option<Callee<'_>>,
    args: &mut [Expr],
    least: &mut Option<Fault>,
)
    requires { Knows scope.now }
    ensures { PassesArgs (env_view scope.now) callee.entry args.old least.old least.new args.new }
{
    for (index, arg) in args.iter_mut().enumerate() {
        check_given(scope, param_of(callee, index), arg, least);
    }
}
