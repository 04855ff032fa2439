// How many words the globals of a unit have.

ghost use Rattle.std.specs.Prelude.{◌≡◌, ◌≤◌};
ghost use Rattle.c0_tree.specs.View.{unit_view};
ghost use Rattle.c0_meaning.specs.Sound.{global_words as words_of_globals};

use c0_meaning::laws::{units_are_typed_or_faulty, well_formed_units_are_sized};
use c0_meaning::{Measured, decls_words};

/// The words of all globals of a unit, at most 262,144.
pub fn global_words(unit: &Measured<'_>) -> u32
    ensures value { result ≡ words_of_globals (unit_view unit.now) }
    ensures most { result ≤ 262144 }
{
    units_are_typed_or_faulty();
    well_formed_units_are_sized();
    decls_words(&unit.unit().globals, unit) as u32
}
