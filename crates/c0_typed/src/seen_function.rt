// A function with where its variables begin.

ghost use Rattle.std.specs.Prelude.{◌≡◌, ◌<◌, length, IfOk};
ghost use Rattle.c0_tree.specs.View.{unit_view};
ghost use Rattle.c0_typed.specs.Seen.{HasOffsets};

use crate::seen_unit::SeenUnit;
use c0_meaning::variable_offsets;
use std::alloc::{AllocError, Global};

/// A function of a unit with the words before each of its variables.
#[derive(Drop)]
pub struct SeenFunction<'a> {
    /// The unit.
    pub unit: &'a SeenUnit<'a>,
    /// The function's number.
    pub number: u32,
    /// The words before each parameter and local.
    pub variables: Vec<u64>,
    ghost there: { number < length (unit_view unit.now.unit.now).functions },
    ghost variables_are: { HasOffsets (unit_view unit.now.unit.now) number variables.items },
}

impl<'a> SeenFunction<'a> {
    /// The function of a number with its offsets.
    pub fn new(
        alloc: Global,
        unit: &'a SeenUnit<'a>,
        number: u32,
    ) -> Result<SeenFunction<'a>, AllocError>
        requires { number < length (unit_view unit.now.unit.now).functions }
        ensures unit { IfOk result (λ x. x.unit.now ≡ unit.now) }
        ensures number { IfOk result (λ x. x.number ≡ number) }
    {
        Ok(SeenFunction {
            unit,
            number,
            variables: variable_offsets(alloc, unit.unit, number)?,
        })
    }
}
