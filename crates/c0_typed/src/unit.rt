// The typed tree of a unit.

ghost use Rattle.std.specs.Prelude.{◌≡◌, map, IfOk};
ghost use Rattle.c0_tree.specs.View.{unit_view};
ghost use Rattle.c0_typed.specs.Typed.{typed_of_unit};
ghost use Rattle.c0_typed.specs.View.{typed_function_view};

use crate::function::typed_function;
use crate::seen_unit::SeenUnit;
use crate::tree::TypedFunction;
use c0_meaning::Measured;
use std::alloc::{AllocError, Global};

/// The typed tree of each function of a unit, in source order.
pub fn typed_unit(alloc: Global, unit: &Measured<'_>) -> Result<Vec<TypedFunction>, AllocError>
    ensures { IfOk result (λ x. map typed_function_view x.items ≡ typed_of_unit (unit_view unit.now)) }
{
    let seen = SeenUnit::new(alloc, unit)?;
    let count = unit.unit().functions.len() as u32;
    let mut all = Vec::new(alloc);
    for number in 0..count {
        all.push(typed_function(alloc, &seen, number)?)?;
    }
    Ok(all)
}
