// The laws of the definitions: each function says one, and does nothing.

ghost use Rattle.std.specs.Prelude.{◌≡◌, ℕ, List, Result};
ghost use Rattle.c0_tree.specs.Tree.{CUnit};
ghost use Rattle.c0_tree.specs.declared.primitive.Program.TheVariants.{User};
ghost use Rattle.c0_tree.specs.declared.primitive.Program.{Program};
ghost use Rattle.c0_meaning.specs.Unit.{IsCheckedAs};
ghost use Rattle.c0_types.specs.Front.{IsFrontAnswer, IsAnswerAs, IsUnitAs};
ghost use Rattle.c0_types.specs.TypedSource.{SourcesAreFaultless};
ghost use Rattle.c0_types.specs.declared.source_fault.SourceFault.{SourceFault};

use c0_meaning::laws::{
    faultless_units_are_checked, least_fault_is_there, programs_are_typed_or_faulty,
    resolving_is_stable,
};
use c0_parser::{readings_are_plain, sources_have_one_answer as readings_have_one_answer};

/// The source of a kernel or a user program is typed by the rules exactly where no fault stands in it.
pub fn sources_are_typed_or_faulty()
    ensures { SourcesAreFaultless }
{
    programs_are_typed_or_faulty();
}

/// A law: of a kernel's source there is one answer, its checked unit or its first fault.
pub fn sources_have_one_answer()
    ensures { (source : List ℕ) (a b : Result CUnit SourceFault) → IsFrontAnswer source a → IsFrontAnswer source b → a ≡ b }
{
    readings_have_one_answer();
    least_fault_is_there();
}

/// A law: so there is of a user program's source.
pub fn programs_have_one_answer()
    ensures { (source : List ℕ) (a b : Result CUnit SourceFault) → IsAnswerAs User source a → IsAnswerAs User source b → a ≡ b }
{
    readings_have_one_answer();
    least_fault_is_there();
}

/// A law: the unit of a source, of a kernel or a user program, is checked.
pub fn units_of_sources_are_checked()
    ensures { (program : Program) (source : List ℕ) (u : CUnit) → IsUnitAs program source u → IsCheckedAs program u }
{
    readings_are_plain();
    faultless_units_are_checked();
    resolving_is_stable();
}
