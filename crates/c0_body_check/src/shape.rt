// Whether a place is local.

ghost use Rattle.std.specs.Prelude.{◌≡◌};
ghost use Rattle.c0_meaning.specs.Env.{variable_named};
ghost use Rattle.c0_meaning.specs.Expression as spec;
ghost use Rattle.c0_tree.specs.View.{expr_view};
ghost use Rattle.c0_body_check.specs.Scope.{Knows, env_view};

use crate::scope::{Scope, find_variable};
use c0_tree::{Expr, Kind};

// Whether the variable of a name is a parameter or a local.
fn is_local_name(scope: &Scope<'_>, text: &[u8]) -> bool
    requires { Knows scope.now }
    ensures { result ≡ spec.is_local_kind (variable_named (env_view scope.now) text.now) }
{
    match find_variable(scope, text) {
        None => false,
        Some(variable) => match variable.kind {
            Kind::Unresolved => false,
            Kind::Struct => false,
            Kind::Field => false,
            Kind::Global => false,
            Kind::Local => true,
            Kind::Function => false,
            Kind::Primitive => false,
        },
    }
}

/// Whether a place's variable is a parameter or a local.
pub fn is_local(scope: &Scope<'_>, expr: &Expr) -> bool
    requires { Knows scope.now }
    ensures { result ≡ spec.is_local (env_view scope.now) (expr_view expr.now) }
{
    match expr {
        Expr::Num(_, _) => false,
        Expr::True(_) => false,
        Expr::False(_) => false,
        Expr::Null(_) => false,
        Expr::Var(name) => is_local_name(scope, name.bytes.as_slice()),
        Expr::Field(_, part, _) => is_local(scope, part),
        Expr::Arrow(_, _, _) => false,
        Expr::Index(_, part, _) => is_local(scope, part),
        Expr::Deref(_, _) => false,
        Expr::AddressOf(_, _) => false,
        Expr::Unary(_, _, _) => false,
        Expr::Binary(_, _, _, _) => false,
    }
}
