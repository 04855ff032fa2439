// The typed tree of expressions.

ghost use Rattle.std.specs.Prelude.{◌≡◌, map, IfOk};
ghost use Rattle.c0_tree.specs.View.{expr_view};
ghost use Rattle.c0_typed.specs.SeenEnv.{env_seen};
ghost use Rattle.c0_typed.specs.Typed.{typed_of_expr};
ghost use Rattle.c0_typed.specs.View.{typed_expr_view};

use crate::elaborated::elaborate;
use crate::seen_function::SeenFunction;
use crate::tree::TypedExpr;
use c0_tree::Expr;
use std::alloc::{AllocError, Global};

/// The typed tree of an expression of a function.
pub fn typed_expr(
    alloc: Global,
    function: &SeenFunction<'_>,
    expr: &Expr,
) -> Result<TypedExpr, AllocError>
    ensures { IfOk result (λ x. typed_expr_view x ≡ typed_of_expr (env_seen function.now) (expr_view expr.now)) }
{
    Ok(elaborate(alloc, function, expr)?.tree)
}

/// The typed trees of expressions.
pub fn typed_exprs(
    alloc: Global,
    function: &SeenFunction<'_>,
    exprs: &[Expr],
) -> Result<Vec<TypedExpr>, AllocError>
    ensures { IfOk result (λ x. map typed_expr_view x.items ≡ map (typed_of_expr (env_seen function.now)) (map expr_view exprs.now)) }
{
    let mut all = Vec::new(alloc);
    for expr in exprs {
        all.push(typed_expr(alloc, function, expr)?)?;
    }
    Ok(all)
}
