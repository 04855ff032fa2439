// Whether expressions need more registers than there are.

ghost use Rattle.std.specs.Prelude.{◌≡◌, ◌<◌, ◌+◌, map, max, min, nat_lt};
ghost use Rattle.c0_meaning.specs.Statement.{MAX_NEED as LIMIT, assign_need, call_need, new_need};
ghost use Rattle.c0_tree.specs.Size as size;
ghost use Rattle.c0_tree.specs.View.{expr_view};

use c0_tree::{BinaryOp, Expr};

/// How many registers an expression may need.
const MAX_NEED: u8 = 12;

// The greater of the need of the left part and one more than that of the right, up to one more than the limit.
fn above(left: u8, right: u8) -> u8
    requires left { left < 14 }
    requires right { right < 14 }
    ensures need { result ≡ min (max left (right + 1)) 13 }
    ensures small { result < 14 }
{
    let next = if right > MAX_NEED { right } else { right + 1 };
    if next < left { left } else { next }
}

// The need of a binary expression, by those of its operands.
fn binary_need(op: BinaryOp, left: u8, right: u8) -> u8
    requires left { left < 14 }
    requires right { right < 14 }
    ensures need { result ≡ min (size.binary_need op left right) 13 }
    ensures small { result < 14 }
{
    match op {
        BinaryOp::And => { if left < right { right } else { left } }
        BinaryOp::Or => { if left < right { right } else { left } }
        _ => above(left, right),
    }
}

/// The registers that an expression needs, up to one more than the limit.
pub fn capped_need(expr: &Expr) -> u8
    ensures need { result ≡ min (size.need (expr_view expr.now)) 13 }
    ensures small { result < 14 }
{
    match expr {
        Expr::Num(_, _) => 1,
        Expr::True(_) => 1,
        Expr::False(_) => 1,
        Expr::Null(_) => 1,
        Expr::Var(_) => 1,
        Expr::Field(_, part, _) => capped_need(part),
        Expr::Arrow(_, part, _) => capped_need(part),
        Expr::Index(_, part, place) => above(capped_need(part), capped_need(place)),
        Expr::Deref(_, part) => capped_need(part),
        Expr::AddressOf(_, part) => capped_need(part),
        Expr::Unary(_, _, part) => capped_need(part),
        Expr::Binary(_, op, left, right) => binary_need(*op, capped_need(left), capped_need(right)),
    }
}

/// Whether a condition or a returned expression needs too many registers.
pub fn is_deep(expr: &Expr) -> bool
    ensures { result ≡ nat_lt LIMIT (size.need (expr_view expr.now)) }
{
    capped_need(expr) > MAX_NEED
}

/// Whether an assignment needs too many registers.
pub fn is_deep_assignment(place: &Expr, value: &Expr) -> bool
    ensures { result ≡ nat_lt LIMIT (assign_need (expr_view place.now) (expr_view value.now)) }
{
    above(capped_need(value), capped_need(place)) > MAX_NEED
}

/// Whether `new` needs too many registers.
pub fn is_deep_object(place: &Expr) -> bool
    ensures { result ≡ nat_lt LIMIT (new_need (expr_view place.now)) }
{
    capped_need(place) >= MAX_NEED
}

// The greatest need of arguments, up to one more than the limit.
fn args_need(args: &[Expr]) -> u8
    ensures need { result ≡ min (size.args_need (map expr_view args.now)) 13 }
    ensures small { result < 14 }
{
    let mut greatest = 0;
    for arg in args {
        let need = capped_need(arg);
        if greatest < need {
            greatest = need;
        }
    }
    greatest
}

/// Whether a call needs too many registers.
pub fn is_deep_call(place: &Expr, args: &[Expr]) -> bool
    ensures { result ≡ nat_lt LIMIT (call_need (expr_view place.now) (map expr_view args.now)) }
{
    args_need(args) >= MAX_NEED || capped_need(place) >= MAX_NEED
}
