// What is known of a function's variables behind a statement.

ghost use Rattle.std.specs.Prelude.{◌≡◌, map};
ghost use Rattle.c0_typed.specs.View.{typed_expr_view, typed_stmt_view, typed_stmts_view};
ghost use Rattle.c0_expr_code.specs.Facts.{variable_in};
ghost use Rattle.c0_stmt_code.specs.Behind as spec;

use c0_expr_code::Facts;
use c0_typed::{TypedExpr, TypedStmt};

// The variable that a place is.
fn variable(place: &TypedExpr) -> Option<u32>
    ensures { result ≡ variable_in (typed_expr_view place.now) }
{
    match place {
        TypedExpr::Global(_) => None,
        TypedExpr::Local(number, _) => Some(*number),
        TypedExpr::Part(_, _) => None,
        TypedExpr::Element(_, _, _) => None,
        TypedExpr::Target(_) => None,
        TypedExpr::Constant(_) => None,
        TypedExpr::Address(_) => None,
        TypedExpr::Negative(_) => None,
        TypedExpr::Negation(_) => None,
        TypedExpr::Plain(_, _, _) => None,
        TypedExpr::Quotient(_, _) => None,
        TypedExpr::Remainder(_, _) => None,
        TypedExpr::Both(_, _) => None,
        TypedExpr::Either(_, _) => None,
    }
}

// What is known, without what is known of the variable that a place is.
fn kill_place(place: &TypedExpr, facts: Facts) -> Facts
    ensures { result ≡ spec.kill_place (typed_expr_view place.now) facts }
{
    match variable(place) {
        Some(number) => facts.assigned_to(number),
        None => facts,
    }
}

// Where an answer went to a place: a variable in the frame that it is has register 2's word.
fn answer_known(in_registers: bool, place: &TypedExpr, facts: Facts) -> Facts
    ensures { result ≡ spec.answer_known in_registers (typed_expr_view place.now) facts }
{
    if in_registers {
        return facts;
    }
    match variable(place) {
        Some(number) => facts.answered(number),
        None => facts,
    }
}

// Behind expressions one after another.
fn all_followed(exprs: &[TypedExpr], facts: Facts) -> Facts
    ensures { result ≡ spec.all_followed (map typed_expr_view exprs.now) facts }
{
    let mut here = facts;
    for expr in exprs {
        here = here.followed(expr);
    }
    here
}

// Where a value has gone to a place.
fn stored_facts(place: &TypedExpr, facts: Facts) -> Facts
    ensures { result ≡ spec.stored_facts (typed_expr_view place.now) facts }
{
    kill_place(place, facts.followed(place))
}

// What is known, without what a statement may end of it.
#[cycle(changed)]
fn changed(stmt: &TypedStmt, facts: Facts) -> Facts
    ensures { result ≡ spec.changed (typed_stmt_view stmt.now) facts }
{
    match stmt {
        TypedStmt::Assign { place, .. } => kill_place(place, facts),
        TypedStmt::Call { place, .. } => kill_place(place, facts.called()),
        TypedStmt::New { place, .. } => kill_place(place, facts.renewed()),
        TypedStmt::If { yes, no, .. } => all_changed(no, all_changed(yes, facts)),
        TypedStmt::While { body, .. } => all_changed(body, facts),
    }
}

/// What is known, without what statements may end of it.
#[cycle(changed)]
pub fn all_changed(stmts: &[TypedStmt], facts: Facts) -> Facts
    ensures { result ≡ spec.all_changed (typed_stmts_view stmts.now) facts }
{
    let mut here = facts;
    for stmt in stmts {
        here = changed(stmt, here);
    }
    here
}

/// What is known behind a statement of a function that keeps its variables in registers, or in its frame: of the numbers 0 to 7 which are parameters that
/// stand in registers 20 to 27 too, whose word register 2 has, and of 0 to 63 which aren't null.
pub fn facts_behind(in_registers: bool, stmt: &TypedStmt, facts: Facts) -> Facts
    ensures { result ≡ spec.facts_behind in_registers (typed_stmt_view stmt.now) facts }
{
    match stmt {
        TypedStmt::Assign { place, value } => stored_facts(place, facts.followed(value)),
        TypedStmt::Call { args, place, .. } => {
            let before = all_followed(args, facts).called();
            answer_known(in_registers, place, stored_facts(place, before))
        }
        TypedStmt::New { place, .. } => stored_facts(place, facts.renewed()),
        TypedStmt::If { test, yes, no } => {
            all_changed(no, all_changed(yes, facts.followed(test)))
        }
        TypedStmt::While { test, body } => all_changed(body, facts).followed(test),
    }
}

/// What is known behind statements of such a function.
pub fn facts_behind_all(in_registers: bool, stmts: &[TypedStmt], facts: Facts) -> Facts
    ensures { result ≡ spec.facts_behind_all in_registers (typed_stmts_view stmts.now) facts }
{
    let mut here = facts;
    for stmt in stmts {
        here = facts_behind(in_registers, stmt, here);
    }
    here
}
