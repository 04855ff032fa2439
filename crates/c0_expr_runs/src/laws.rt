//! The laws of runs of the code of expressions. Each is the contract of a function that does nothing.

ghost use Rattle.mips_table.specs.Code.{World, Sound};
ghost use Rattle.c0_expr_runs.specs.Laws.{AreasHold, CostsAreFew, ExpressionsRun, GivenRun, HeldElsewhere, HeldStays};
ghost use Rattle.c0_expr_runs.specs.Laws.{PartsFit, PlacesRun, StoresHold, StoresRun, TestsRun};
ghost use Rattle.c0_expr_runs.specs.FactLaws.{FactsGrow, FactsStay};

use c0_meaning::laws::{units_are_typed_or_faulty, words_are_those_of_the_parts};
use c0_meaning::run_laws::{declared_types_have_words, parts_of_a_type_are_apart};
use masm::laws::{jumps_lead, straight_code_runs};

/// The code of a typed expression gives its value, or its place, or leaves by the exit of its fault.
pub fn expressions_run()
    ensures typed { ExpressionsRun }
    ensures given { GivenRun }
    ensures places { PlacesRun }
{
    straight_code_runs();
    jumps_lead();
}

/// The code of a typed test goes where its answer says.
pub fn tests_run()
    ensures { TestsRun }
{
    straight_code_runs();
    jumps_lead();
}

/// What evaluations and tests tell of variables is so.
pub fn facts_grow()
    ensures { FactsGrow }
{}

/// What is known of variables holds on, as far as it isn't lost.
pub fn facts_stay()
    ensures { FactsStay }
{}

/// Evaluations cost at most a unit for each node.
pub fn costs_are_few()
    ensures { CostsAreFew }
{}

/// Where a scalar is stored, the state with it stands in the machine.
pub fn stores_hold()
    ensures { StoresHold }
{}

/// What stands in words stays where these do.
pub fn held_stays()
    ensures { HeldStays }
{}

/// Typed values stay typed with a part changed, and with more objects.
pub fn parts_fit()
    ensures { PartsFit }
{}

/// In a unit that is well formed all that the code of expressions rests on holds.
pub fn areas_hold()
    ensures { AreasHold }
{
    units_are_typed_or_faulty();
    words_are_those_of_the_parts();
    declared_types_have_words();
    parts_of_a_type_are_apart();
}

/// A register's word is stored at a place.
pub fn stores_run()
    ensures { (w : World) → Sound w → StoresRun w }
{
    straight_code_runs();
    jumps_lead();
}

/// Typed values stand as before where another function runs, and where there are more objects.
pub fn held_elsewhere()
    ensures { HeldElsewhere }
{}
