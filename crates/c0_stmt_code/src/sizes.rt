//! The laws of how long the code of functions is, and that its instructions are in range: each function says one, and does nothing.

ghost use Rattle.c0_stmt_code.specs.Lengths.{FunctionsAreShort, LengthsAreFixed};
ghost use Rattle.c0_stmt_code.specs.Ranges.{FunctionsAreInRange};

use crate::emit_laws::functions_are_emittable;
use c0_asm_body::laws::bodies_are_encoded;
use c0_expr_code::laws::{codes_are_in_range, codes_are_short};

/// The code of a function has as many words wherever what it calls stands.
pub fn lengths_are_fixed()
    ensures { LengthsAreFixed }
{}

/// The code of a function has at most 32 words for each node.
pub fn functions_are_short()
    ensures { FunctionsAreShort }
{
    codes_are_short();
}

/// The instructions of the code of functions are in range.
pub fn functions_are_in_range()
    ensures { FunctionsAreInRange }
{
    functions_are_emittable();
    codes_are_in_range();
    bodies_are_encoded();
}
