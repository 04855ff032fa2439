// The check of a body of statements.

ghost use Rattle.std.specs.Prelude.{◌≡◌};
ghost use Rattle.c0_meaning.specs.Expression.{resolved};
ghost use Rattle.c0_tree.specs.View.{expr_view, stmts_view};
ghost use Rattle.c0_meaning.specs.Form.{ty_view};
ghost use Rattle.c0_name_check.specs.Met.{Meets};
ghost use Rattle.c0_body_check.specs.Scope.{Knows, env_view};
ghost use Rattle.c0_body_check.specs.Stmts.{code_faults, resolved_of_stmts};

use crate::parts::check_tested;
use crate::scope::Scope;
use crate::stmts::check_stmts;
use c0_meaning::form::Found;
use c0_name_check::met::Fault;
use c0_tree::{CType, Expr, Stmt};

/// Checks the statements of a body and the expression that is returned, whose type is to be the function's: their names
/// are resolved, and the least fault is kept.
pub fn check_code(
    scope: &Scope<'_>,
    ty: &CType,
    stmts: &mut Vec<Stmt>,
    answer: &mut Expr,
    least: &mut Option<Fault>,
)
    requires { Knows scope.now }
    ensures met { Meets least.old least.new (code_faults (env_view scope.now) (ty_view ty.now) (stmts_view stmts.old.items) (expr_view answer.old)) }
    ensures stmts { stmts_view stmts.new.items ≡ resolved_of_stmts (env_view scope.now) (stmts_view stmts.old.items) }
    ensures answer { expr_view answer.new ≡ resolved (env_view scope.now) (expr_view answer.old) }
{
    check_stmts(scope, stmts.as_mut_slice(), least);
    check_tested(scope, Found::Of(ty), answer, least);
}
