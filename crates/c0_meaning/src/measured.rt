// A well formed unit whose sizes are known.

ghost use Rattle.std.specs.Prelude.{◌≡◌, ◌<◌, Some, slice_get, List, length};
ghost use Rattle.std.specs.Coded.{codes};
ghost use Rattle.c0_tree.specs.Primitives.{CPrimitive};
ghost use Rattle.c0_tree.specs.View.{unit_view};
ghost use Rattle.c0_tree.specs.declared.tree.Unit.{Unit as Source};
ghost use Rattle.c0_tree.specs.contracts.tree.Unit as source;
ghost use Rattle.c0_meaning.specs.Sizes.{IsMeasured, struct_sizes};
ghost use Rattle.c0_meaning.specs.Sound.{shapes};
ghost use Rattle.c0_meaning.specs.Unit.{IsWellFormed};

use c0_tree::Unit;
use std::marker::Model;

/// A well formed unit, with the words of each of its structs: both are lent.
#[derive(Drop)]
pub struct Measured<'a> {
    unit: &'a Unit,
    // The words of each struct, by its number, up to 1,048,577.
    words: &'a [u32],
}

impl<'a> Model for Measured<'a> {
    ghost Value = { Source };

    ghost coded = { Prim.hlevel (codes, source.the_row.coded) };

    ghost view = { λ m. m.unit.now };

    ghost invariant = { λ m. IsMeasured (unit_view m.unit.now) m.words.now };
}

impl<'a> Measured<'a> {
    /// A well formed unit with the words of its structs, by their numbers, up to 1,048,577.
    pub fn new(unit: &'a Unit, words: &'a [u32]) -> Measured<'a>
        requires { IsMeasured (unit_view unit.now) words.now }
        ensures { result ≡ unit.now }
    {
        Measured { unit, words }
    }

    /// Lends the unit.
    pub fn unit(&self) -> &'a Unit
        ensures same { result.now ≡ self.now }
        ensures well_formed { (primitives : List CPrimitive) × IsWellFormed primitives (unit_view self.now) }
    {
        self.unit
    }

    /// The words of the struct of a number, up to 1,048,577.
    pub fn struct_words(&self, number: u32) -> u32
        requires { number < length self.now.structs.items }
        ensures { slice_get (struct_sizes (shapes (unit_view self.now))) number ≡ Some result }
    {
        self.words[number as usize]
    }
}
