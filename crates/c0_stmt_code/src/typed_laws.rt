//! The laws of the code of typed statements and functions.

ghost use Rattle.c0_stmt_code.specs.TypedLaws.{FunctionsAreMade, StatementsAreMade};

use crate::emit_laws::functions_are_emittable;
use c0_expr_code::laws::names_are_enough;
use c0_expr_code::node_laws::nodes_are_made;
use c0_meaning::laws::{numbers_tell, units_are_typed_or_faulty};
use c0_typed::laws::needs_are_few;

/// The code of the typed tree of typed statements is that of the statements.
pub fn statements_are_made()
    ensures { StatementsAreMade }
{
    nodes_are_made();
    names_are_enough();
}

/// Of each function of a well formed unit the code of the typed tree is that of the function, and the emitter can emit it.
pub fn functions_are_made()
    ensures { FunctionsAreMade }
{
    statements_are_made();
    nodes_are_made();
    names_are_enough();
    functions_are_emittable();
    needs_are_few();
    numbers_tell();
    units_are_typed_or_faulty();
}
