// The typed tree of statements.

ghost use Rattle.std.specs.Prelude.{◌≡◌, IfOk};
ghost use Rattle.c0_tree.specs.View.{stmt_view, stmts_view};
ghost use Rattle.c0_typed.specs.SeenEnv.{env_seen};
ghost use Rattle.c0_typed.specs.Sized.{AreSizedStmts, IsSizedStmt};
ghost use Rattle.c0_typed.specs.Typed.{typed_of_stmt, typed_of_stmts};
ghost use Rattle.c0_typed.specs.View.{typed_stmt_view, typed_stmts_view};

use crate::expression::{typed_expr, typed_exprs};
use crate::place::words_in;
use crate::seen_function::SeenFunction;
use crate::tree::TypedStmt;
use c0_tree::Stmt;
use std::alloc::{AllocError, Global};

// The typed tree of a statement of a function.
#[cycle(typed)]
fn typed_stmt(
    alloc: Global,
    function: &SeenFunction<'_>,
    stmt: &Stmt,
) -> Result<TypedStmt, AllocError>
    requires { IsSizedStmt (env_seen function.now).structs (stmt_view stmt.now) }
    ensures { IfOk result (λ x. typed_stmt_view x ≡ typed_of_stmt (env_seen function.now) (stmt_view stmt.now)) }
{
    match stmt {
        Stmt::Assign { place, value, .. } => Ok(TypedStmt::Assign {
            place: typed_expr(alloc, function, place)?,
            value: typed_expr(alloc, function, value)?,
        }),
        Stmt::Call {
            place,
            function: callee,
            args,
            ..
        } => Ok(TypedStmt::Call {
            kind: callee.kind,
            number: callee.number,
            args: typed_exprs(alloc, function, args)?,
            place: typed_expr(alloc, function, place)?,
        }),
        Stmt::New { place, ty, .. } => Ok(TypedStmt::New {
            words: words_in(function, ty),
            place: typed_expr(alloc, function, place)?,
        }),
        Stmt::If { test, yes, no, .. } => Ok(TypedStmt::If {
            test: typed_expr(alloc, function, test)?,
            yes: typed_stmts(alloc, function, yes)?,
            no: typed_stmts(alloc, function, no)?,
        }),
        Stmt::While { test, body, .. } => Ok(TypedStmt::While {
            test: typed_expr(alloc, function, test)?,
            body: typed_stmts(alloc, function, body)?,
        }),
    }
}

/// The typed tree of statements of a function.
#[cycle(typed)]
pub fn typed_stmts(
    alloc: Global,
    function: &SeenFunction<'_>,
    stmts: &[Stmt],
) -> Result<Vec<TypedStmt>, AllocError>
    requires { AreSizedStmts (env_seen function.now).structs (stmts_view stmts.now) }
    ensures { IfOk result (λ x. typed_stmts_view x.items ≡ typed_of_stmts (env_seen function.now) (stmts_view stmts.now)) }
{
    let mut all = Vec::new(alloc);
    for stmt in stmts {
        all.push(typed_stmt(alloc, function, stmt)?)?;
    }
    Ok(all)
}
