// A unit and the typed tree of its functions.

ghost use Rattle.std.specs.Prelude.{◌≡◌, ◌<◌, length, map, IfOk};
ghost use Rattle.std.specs.Coded.{codes};
ghost use Rattle.c0_tree.specs.View.{unit_view};
ghost use Rattle.c0_tree.specs.declared.tree.Unit.{Unit as Source};
ghost use Rattle.c0_tree.specs.contracts.tree.Unit as source;
ghost use Rattle.c0_typed.specs.Seen.{OfFunction};
ghost use Rattle.c0_typed.specs.Typed.{typed_of_function, typed_of_unit};
ghost use Rattle.c0_typed.specs.View.{typed_function_view};

use c0_meaning::Measured;
use c0_typed::{TypedFunction, typed_unit};
use std::alloc::{AllocError, Global};
use std::marker::Model;

/// A unit with the typed tree of each of its functions.
#[derive(Drop)]
pub struct TypedUnit<'a> {
    unit: &'a Measured<'a>,
    // The trees, in source order.
    functions: Vec<TypedFunction>,
}

impl<'a> Model for TypedUnit<'a> {
    ghost Value = { Source };

    ghost coded = { Prim.hlevel (codes, source.the_row.coded) };

    ghost view = { λ t. t.unit.now };

    ghost invariant = { λ t. map typed_function_view t.functions.items ≡ typed_of_unit (unit_view t.unit.now) };
}

impl<'a> TypedUnit<'a> {
    /// The typed unit of a unit.
    pub fn new(alloc: Global, unit: &'a Measured<'a>) -> Result<TypedUnit<'a>, AllocError>
        ensures { IfOk result (λ t. t ≡ unit.now) }
    {
        Ok(TypedUnit {
            unit,
            functions: typed_unit(alloc, unit)?,
        })
    }

    /// Lends the unit.
    pub fn measured(&self) -> &'a Measured<'a>
        ensures { result.now ≡ self.now }
    {
        self.unit
    }

    /// The typed tree of the function of a number, one of the unit's.
    pub fn function(&self, number: u32) -> &TypedFunction
        requires { number < length (unit_view self.now).functions }
        ensures { OfFunction (unit_view self.now) number (λ f. typed_function_view result.now ≡ typed_of_function (unit_view self.now) f) }
    {
        &self.functions[number as usize]
    }
}
