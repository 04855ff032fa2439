// Units that are known to be typed, with the sizes of their structs: a kernel's, and a user program's.

ghost use Rattle.std.specs.Prelude.{◌≡◌, ◌<◌, IsTrue, Some, length, position};
ghost use Rattle.std.specs.List.{list_any};
ghost use Rattle.std.specs.Coded.{codes};
ghost use Rattle.c0_tree.specs.Primitives.{kernel_primitives, user_primitives};
ghost use Rattle.c0_tree.specs.View.{unit_view};
ghost use Rattle.c0_tree.specs.declared.primitive.Program.TheVariants.{Kernel, User};
ghost use Rattle.c0_tree.specs.declared.tree.Unit.{Unit as Source};
ghost use Rattle.c0_tree.specs.contracts.tree.Unit as source;
ghost use Rattle.c0_meaning.specs.Limits.{first_number, is_dispatch, is_main};
ghost use Rattle.c0_meaning.specs.Sizes.{IsMeasured};
ghost use Rattle.c0_meaning.specs.Unit.{IsChecked, IsCheckedAs, IsWellFormed};

use crate::first::first_of;
use crate::measured::Measured;
use c0_tree::{Program, Unit};
use std::marker::Model;

/// The unit of a kernel that meets the rules of typing, each of its names with what it stands for.
#[derive(Drop)]
pub struct Checked {
    unit: Unit,
    // The words of each struct, by its number, up to 1,048,577.
    words: Vec<u32>,
}

impl Model for Checked {
    ghost Value = { Source };

    ghost coded = { Prim.hlevel (codes, source.the_row.coded) };

    ghost view = { λ c. c.unit };

    ghost invariant = { λ c. IsChecked (unit_view c.unit) × IsMeasured (unit_view c.unit) c.words.items };
}

impl Checked {
    /// Keeps a unit that meets the rules, with the words of its structs, by their numbers, up to 1,048,577.
    pub fn new(unit: Unit, words: Vec<u32>) -> Checked
        requires checked { IsChecked (unit_view unit) }
        requires measured { IsMeasured (unit_view unit) words.items }
        ensures { result ≡ unit }
    {
        Checked { unit, words }
    }

    /// Lends the unit with the words of its structs.
    pub fn measured(&self) -> Measured<'_>
        ensures { result ≡ self.now }
    {
        Measured::new(&self.unit, &self.words)
    }

    /// Lends the unit.
    pub fn unit(&self) -> &Unit
        ensures same { result.now ≡ self.now }
        ensures checked { IsChecked (unit_view self.now) }
        ensures well_formed { IsWellFormed kernel_primitives (unit_view self.now) }
    {
        &self.unit
    }

    /// The number of `dispatch` among the functions, from 0.
    pub fn first(&self) -> u32
        ensures is { result ≡ first_number Kernel (unit_view self.now) }
        ensures found { position is_dispatch (unit_view self.now).functions ≡ Some result }
        ensures there { result < length self.now.functions.items }
    {
        first_of(Program::Kernel, &self.unit)
    }
}

/// The unit of a user program that meets the rules of typing, each of its names with what it stands for.
#[derive(Drop)]
pub struct UserChecked {
    unit: Unit,
    // The words of each struct, by its number, up to 1,048,577.
    words: Vec<u32>,
}

impl Model for UserChecked {
    ghost Value = { Source };

    ghost coded = { Prim.hlevel (codes, source.the_row.coded) };

    ghost view = { λ c. c.unit };

    ghost invariant = { λ c. IsCheckedAs User (unit_view c.unit) × IsMeasured (unit_view c.unit) c.words.items };
}

impl UserChecked {
    /// Keeps a unit that meets the rules, with the words of its structs, by their numbers, up to 1,048,577.
    pub fn new(unit: Unit, words: Vec<u32>) -> UserChecked
        requires checked { IsCheckedAs User (unit_view unit) }
        requires measured { IsMeasured (unit_view unit) words.items }
        ensures { result ≡ unit }
    {
        UserChecked { unit, words }
    }

    /// Lends the unit with the words of its structs.
    pub fn measured(&self) -> Measured<'_>
        ensures { result ≡ self.now }
    {
        Measured::new(&self.unit, &self.words)
    }

    /// Lends the unit.
    pub fn unit(&self) -> &Unit
        ensures same { result.now ≡ self.now }
        ensures checked { IsCheckedAs User (unit_view self.now) }
        ensures well_formed { IsWellFormed user_primitives (unit_view self.now) }
        ensures has_main { IsTrue (list_any is_main (unit_view self.now).functions) }
    {
        &self.unit
    }

    /// The number of `main` among the functions, from 0.
    pub fn first(&self) -> u32
        ensures is { result ≡ first_number User (unit_view self.now) }
        ensures found { position is_main (unit_view self.now).functions ≡ Some result }
        ensures there { result < length self.now.functions.items }
    {
        first_of(Program::User, &self.unit)
    }
}
