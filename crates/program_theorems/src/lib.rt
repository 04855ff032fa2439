//! Properties of user programs, proved of every system in which they run: each function is a law.
#![tactic(auto)]

ghost use Rattle.c0_tree.specs.declared.primitive.Program.TheVariants.{User};
ghost use Rattle.kernel_theorems.specs.Text.{IsTextAs};
ghost use Rattle.user_c0.specs.Summing.{summing};
ghost use Rattle.program_theorems.specs.Answered.{BootedAreOrdinary, TracesAreAnswered};
ghost use Rattle.program_theorems.specs.Kernels.{KernelsAnswer};
ghost use Rattle.program_theorems.specs.Summing.{SumsAreTraced};
ghost use Rattle.program_theorems.specs.SummingText.{text};

use c0_meaning::program_laws::arguments_stay;
use c0_types::laws::units_of_sources_are_checked;
use cvm_shell::laws::{booted_programs_run, linked_users_have_their_programs};
use kernel_linker::laws::accepted_systems_are_of_their_images;
use kernel_theorems::program_texts_mean_trees;
use user_c0::summing::sums_are_told;
use user_c0::users::journals_are_answered;

/// A law: each system that is run is ordinary.
pub fn booted_systems_are_ordinary()
    ensures { BootedAreOrdinary }
{
    accepted_systems_are_of_their_images();
    units_of_sources_are_checked();
}

/// A law: a trace of the right form is answered.
pub fn traces_are_answered()
    ensures { TracesAreAnswered }
{
    booted_systems_are_ordinary();
    journals_are_answered();
}

/// A law: where each dispatch of a run answers a user, so where it sets register 2 of it alone, once at most, and only where this user calls, the user's
/// journal is that of events; and so each trace of it is answered.
pub fn kernels_answer()
    ensures { KernelsAnswer }
{
    traces_are_answered();
}

/// A law: the text is that of the tree.
pub fn text_is_summing()
    ensures { IsTextAs User 5000 text summing }
{}

/// A law: in every system in which a user's file was compiled of this text and its kernel answers its calls, its trace prints one call, which finds 55 in
/// register 4, and then its end.
pub fn sums_are_traced()
    ensures { SumsAreTraced }
{
    text_is_summing();
    program_texts_mean_trees();
    linked_users_have_their_programs();
    booted_programs_run();
    sums_are_told();
    arguments_stay();
}
