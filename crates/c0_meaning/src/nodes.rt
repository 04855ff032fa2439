// How many nodes trees have, up to 2^32 - 1.

ghost use Rattle.std.specs.Prelude.{◌≡◌, ◌+◌, ◌-◌, ◌^◌, min, map};
ghost use Rattle.c0_tree.specs.Size.{nodes, args_nodes, stmt_nodes, stmts_nodes};
ghost use Rattle.c0_tree.specs.View.{expr_view, stmt_view, stmts_view};

use c0_tree::{Expr, Stmt};

/// The nodes of an expression: itself and its parts; at most 2^32 - 1 are counted.
pub fn expr_nodes(e: &Expr) -> u32
    ensures { result ≡ min (nodes (expr_view e.now)) (2 ^ 32 - 1) }
{
    match e {
        Expr::Num(_, _) => 1,
        Expr::True(_) => 1,
        Expr::False(_) => 1,
        Expr::Null(_) => 1,
        Expr::Var(_) => 1,
        Expr::Field(_, e, _) => expr_nodes(e).saturating_add(1),
        Expr::Arrow(_, e, _) => expr_nodes(e).saturating_add(1),
        Expr::Index(_, e, i) => expr_nodes(e)
            .saturating_add(expr_nodes(i))
            .saturating_add(1),
        Expr::Deref(_, e) => expr_nodes(e).saturating_add(1),
        Expr::AddressOf(_, e) => expr_nodes(e).saturating_add(1),
        Expr::Unary(_, _, e) => expr_nodes(e).saturating_add(1),
        Expr::Binary(_, _, a, b) => expr_nodes(a)
            .saturating_add(expr_nodes(b))
            .saturating_add(1),
    }
}

// The nodes of arguments.
fn all_nodes(args: &[Expr]) -> u32
    ensures { result ≡ min (args_nodes (map expr_view args.now)) (2 ^ 32 - 1) }
{
    let mut count = 0u32;
    for e in args {
        count = count.saturating_add(expr_nodes(e));
    }
    count
}

// The nodes of an assignment, or of another statement without statements in it.
fn with_statement(first: u32, second: u32) -> u32
    ensures { result ≡ min (first + second + 1) (2 ^ 32 - 1) }
{
    first.saturating_add(second).saturating_add(1)
}

/// The nodes of a statement: itself, its expressions, and the statements in it; at most 2^32 - 1 are counted.
#[cycle(nodes)]
pub fn stmt_nodes_of(s: &Stmt) -> u32
    ensures { result ≡ min (stmt_nodes (stmt_view s.now)) (2 ^ 32 - 1) }
{
    match s {
        Stmt::Assign { place, value, .. } => with_statement(expr_nodes(place), expr_nodes(value)),
        Stmt::Call { place, args, .. } => with_statement(expr_nodes(place), all_nodes(args)),
        Stmt::New { place, .. } => with_statement(expr_nodes(place), 0),
        Stmt::If { test, yes, no, .. } => with_statement(
            expr_nodes(test).saturating_add(stmts_nodes_of(yes)),
            stmts_nodes_of(no),
        ),
        Stmt::While { test, body, .. } => with_statement(expr_nodes(test), stmts_nodes_of(body)),
    }
}

/// The nodes of statements; at most 2^32 - 1 are counted.
#[cycle(nodes)]
pub fn stmts_nodes_of(stmts: &[Stmt]) -> u32
    ensures { result ≡ min (stmts_nodes (stmts_view stmts.now)) (2 ^ 32 - 1) }
{
    let mut count = 0u32;
    for s in stmts {
        count = count.saturating_add(stmt_nodes_of(s));
    }
    count
}
