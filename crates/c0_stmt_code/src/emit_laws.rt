// What the emitters ask of functions is met in well formed units.

ghost use Rattle.c0_stmt_code.specs.Emit.{FunctionsAreEmittable};

use c0_meaning::laws::{numbers_tell, units_are_typed_or_faulty};

/// A law: each function of a well formed unit meets what its emitters ask.
pub fn functions_are_emittable()
    ensures { FunctionsAreEmittable }
{
    numbers_tell();
    units_are_typed_or_faulty();
}
