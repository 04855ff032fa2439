// What can be said of an expression by its outermost part.

ghost use Rattle.std.specs.Prelude.{◌≡◌};
ghost use Rattle.c0_meaning.specs.Expression as spec;
ghost use Rattle.c0_tree.specs.View.{expr_view};

use c0_tree::{BinaryOp, Expr, Span};

/// Where an expression stands.
pub fn span_of(expr: &Expr) -> Span
    ensures { result ≡ spec.span_of (expr_view expr.now) }
{
    match expr {
        Expr::Num(span, _) => *span,
        Expr::True(span) => *span,
        Expr::False(span) => *span,
        Expr::Null(span) => *span,
        Expr::Var(name) => name.span,
        Expr::Field(span, _, _) => *span,
        Expr::Arrow(span, _, _) => *span,
        Expr::Index(span, _, _) => *span,
        Expr::Deref(span, _) => *span,
        Expr::AddressOf(span, _) => *span,
        Expr::Unary(span, _, _) => *span,
        Expr::Binary(span, _, _, _) => *span,
    }
}

/// Whether it is a variable, `place.f`, `place[i]`, `*e` or `e->f`.
pub fn is_place(expr: &Expr) -> bool
    ensures { result ≡ spec.is_lvalue (expr_view expr.now) }
{
    match expr {
        Expr::Num(_, _) => false,
        Expr::True(_) => false,
        Expr::False(_) => false,
        Expr::Null(_) => false,
        Expr::Var(_) => true,
        Expr::Field(_, _, _) => true,
        Expr::Arrow(_, _, _) => true,
        Expr::Index(_, _, _) => true,
        Expr::Deref(_, _) => true,
        Expr::AddressOf(_, _) => false,
        Expr::Unary(_, _, _) => false,
        Expr::Binary(_, _, _, _) => false,
    }
}

/// Whether it is `null`.
pub fn is_null(expr: &Expr) -> bool
    ensures { result ≡ spec.is_null (expr_view expr.now) }
{
    match expr {
        Expr::Num(_, _) => false,
        Expr::True(_) => false,
        Expr::False(_) => false,
        Expr::Null(_) => true,
        Expr::Var(_) => false,
        Expr::Field(_, _, _) => false,
        Expr::Arrow(_, _, _) => false,
        Expr::Index(_, _, _) => false,
        Expr::Deref(_, _) => false,
        Expr::AddressOf(_, _) => false,
        Expr::Unary(_, _, _) => false,
        Expr::Binary(_, _, _, _) => false,
    }
}

/// Whether an operator compares for equality.
pub fn compares(op: BinaryOp) -> bool
    ensures { result ≡ spec.compares op }
{
    match op {
        BinaryOp::Eq => true,
        BinaryOp::Ne => true,
        _ => false,
    }
}
