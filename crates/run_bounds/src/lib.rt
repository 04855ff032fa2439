//! What bounds a run: how many of its turns take lines, by the rows of its schedule, and how many steps its turns take, by its dispatches.
//!
//! The definitions are in `specs/`. Each law is the contract of a function that does nothing.
#![tactic(auto)]

ghost use Rattle.run_bounds.specs.Lines.{LinesAreFew, LinesTakenAreFew, RaisedLinesAreFew};
ghost use Rattle.run_bounds.specs.Steps.{DispatchesUsePages, BoundsAreSmall};

use c0_meaning::run_laws::{primitives_alone_change_the_world, runs_stay_within_their_units};
use cvm_model::KernelWorld;

/// A law: of the first turns at most as many have lines as there are steps of the outside at which some are raised.
pub fn turns_with_lines_are_few()
    ensures { LinesAreFew }
{}

/// A law: under a schedule these are no more than its `line` rows.
pub fn raised_lines_are_few()
    ensures { RaisedLinesAreFew }
{
    turns_with_lines_are_few();
}

/// A law: of the dispatches of a run at most as many take lines as turns have some.
pub fn lines_taken_are_few()
    ensures { LinesTakenAreFew }
{}

/// A law: a dispatch takes no more units than it is given, and touches no more pages than it takes units.
pub fn dispatches_use_pages()
    ensures { DispatchesUsePages }
{
    runs_stay_within_their_units::<KernelWorld>();
    primitives_alone_change_the_world::<KernelWorld>();
}

/// A law: the bound of a run is the sum of its turns, and of its dispatches by their units and pages.
pub fn bounds_are_small()
    ensures { BoundsAreSmall }
{
    dispatches_use_pages();
}
