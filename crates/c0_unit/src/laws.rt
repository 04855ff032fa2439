//! The laws of the code of a unit: each function says one, and does nothing.

ghost use Rattle.c0_unit.specs.Laws.{TreesHaveAddresses, UnitsAreShort, UnitsHaveAddresses, UnitsStand};

use c0_meaning::laws::units_are_typed_or_faulty;
use c0_stmt_code::sizes::{functions_are_in_range, functions_are_short, lengths_are_fixed};

/// A unit's code has at most 512 words, and 32 for each node.
pub fn units_are_short()
    ensures { UnitsAreShort }
{
    functions_are_short();
}

/// A well-formed unit's code has its parts where its addresses say, whatever its first function is, and its instructions are in range.
pub fn units_stand()
    ensures { UnitsStand }
{
    units_are_typed_or_faulty();
    functions_are_short();
    lengths_are_fixed();
    functions_are_in_range();
}

/// A well-formed tree has its addresses.
pub fn trees_have_addresses()
    ensures { TreesHaveAddresses }
{
    units_are_typed_or_faulty();
    functions_are_short();
}

/// So has a well-formed unit.
pub fn units_have_addresses()
    ensures { UnitsHaveAddresses }
{
    trees_have_addresses();
}
