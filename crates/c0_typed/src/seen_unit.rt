// A unit with where its globals and fields begin.

ghost use Rattle.std.specs.Prelude.{◌≡◌, map, IfOk};
ghost use Rattle.c0_tree.specs.View.{unit_view};
ghost use Rattle.c0_meaning.specs.Env.{typed_of};
ghost use Rattle.c0_meaning.specs.Offsets.{offsets, field_offsets as fields_of};
ghost use Rattle.c0_meaning.specs.Sound.{shapes};
ghost use Rattle.c0_meaning.specs.TypedState.{types_of};

use c0_meaning::{Measured, field_offsets, global_offsets};
use std::alloc::{AllocError, Global};

/// A unit with the words before each of its globals and fields.
#[derive(Drop)]
pub struct SeenUnit<'a> {
    /// The unit, with the words of its structs.
    pub unit: &'a Measured<'a>,
    /// The words before each global.
    pub globals: Vec<u64>,
    /// The words before each field, by the number of its struct.
    pub fields: Vec<Vec<u64>>,
    ghost globals_are: { globals.items ≡ offsets (shapes (unit_view unit.now)) (types_of (map typed_of (unit_view unit.now).globals)) },
    ghost fields_are: { map (λ v. v.items) fields.items ≡ fields_of (unit_view unit.now) },
}

impl<'a> SeenUnit<'a> {
    /// The unit with its offsets.
    pub fn new(alloc: Global, unit: &'a Measured<'a>) -> Result<SeenUnit<'a>, AllocError>
        ensures { IfOk result (λ x. x.unit.now ≡ unit.now) }
    {
        Ok(SeenUnit {
            unit,
            globals: global_offsets(alloc, unit)?,
            fields: field_offsets(alloc, unit)?,
        })
    }
}
