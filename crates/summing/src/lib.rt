//! A whole system: a kernel, and two users that each bring it a number by a system call, in assembler or compiled of C0. docs/VERIFYING.md says how to go on.
#![tactic(auto)]

ghost use Rattle.kernel_boots.specs.Separation.{SourceChangesNone, SourceSeparates};
ghost use Rattle.kernel_theorems.specs.Text.{IsTextOf};
ghost use Rattle.summing.specs.Boots.{AnyUsersSum, StepsAreFew, SummingBoots};
ghost use Rattle.summing.specs.Compiled.{AnyCountedProgramsSum, AnyProgramsSum, CompiledStepsAreFew, CompiledSumsBoot};
ghost use Rattle.summing.specs.Property.{SumsAreRight};
ghost use Rattle.summing.specs.Text.{text};
ghost use Rattle.summing.specs.Tree.{kernel_tree};
ghost use Rattle.summing.specs.Users.{UsersCall};

use cvm_model::reasoning::runs_are_lawful;
use cvm_shell::laws::linked_users_have_their_programs;
use kernel_boots::separation::{boots_agree, texts_change_none};
use kernel_linker::laws::accepted_systems_are_of_their_images;
use kernel_theorems::{program_texts_mean_trees, texts_mean_trees};
use mips_table::runs::turns_are_counted;
use program_systems::{
    adders_are_counted, adders_call, counts_tell, first_calls_come, images_ignore_spans,
    texts_are_adders,
};
use run_bounds::{bounds_are_small, lines_taken_are_few, raised_lines_are_few};

/// A law: whatever lines are raised, each turn ends, each user's machine is after its own steps, and the total is the sum of what was brought.
pub fn sums_are_right()
    ensures { SumsAreRight }
{
    runs_are_lawful();
}

/// A law: the two users call, after 21 steps with 10, and after 41 with 20.
pub fn users_call()
    ensures { UsersCall }
{}

/// A law: the text is that of the tree.
pub fn text_is_tree()
    ensures { IsTextOf 21000 text kernel_tree }
{}

/// A law: each boot (`boot`, `rom` or `sample`, with no failed call) of an image with this text and two users that call, under every schedule, printed the
/// text of a state of its run in which the total is the sum of what was brought; and with as many turns as the users' steps, the schedule's `line` rows and
/// three, and the steps for them, it halted and reports the sum.
pub fn any_users_sum()
    ensures { AnyUsersSum }
{
    accepted_systems_are_of_their_images();
    runs_are_lawful();
    turns_are_counted();
    bounds_are_small();
    lines_taken_are_few();
    raised_lines_are_few();
    texts_mean_trees();
    text_is_tree();
}

/// A law: so it is of the two users that count to 10 and to 20, with 65 turns more than the schedule has `line` rows; and then each boot printed at most three
/// rows more than that, and a report that is stated letter by letter.
pub fn summing_boots()
    ensures { SummingBoots }
{
    any_users_sum();
    users_call();
}

/// A law: with 4 pages for each user, 8 frames and no busy times the steps that `summing_boots` asks for are 26,240,369, and 462,513 more for each `line` row.
pub fn steps_are_few()
    ensures { StepsAreFew }
{}

/// A law: the kernel that adds up what its users bring changes no machine, and so separates them: a user's block doesn't tell what the other one brought.
pub fn summing_separates()
    ensures none { SourceChangesNone text }
    ensures separates { SourceSeparates text }
{
    texts_change_none();
    text_is_tree();
    boots_agree();
}

/// A law: each boot (`boot`, `rom` or `sample`, with no failed call) of an image with the kernel's text and the images of two programs that bring numbers,
/// under every schedule, printed the text of a state of its run in which the total is the sum of what was brought; and with enough turns and steps, which the
/// programs' units say, it halted and reports the sum.
pub fn any_programs_sum()
    ensures { AnyProgramsSum }
{
    first_calls_come();
    any_users_sum();
}

/// A law: where it is known behind how many steps they trap, it halts with as many turns as these, three, and the schedule's `line` rows.
pub fn any_counted_programs_sum()
    ensures { AnyCountedProgramsSum }
{
    first_calls_come();
    counts_tell();
    any_users_sum();
}

/// A law: so it is of each boot of an image that was linked of what `compile program` put of the two texts, with a total of 265, and with 343 turns more than
/// the schedule has `line` rows, which are those that it takes without them.
pub fn compiled_sums_boot()
    ensures { CompiledSumsBoot }
{
    accepted_systems_are_of_their_images();
    linked_users_have_their_programs();
    program_texts_mean_trees();
    texts_are_adders();
    adders_call();
    images_ignore_spans();
    adders_are_counted();
    any_counted_programs_sum();
}

/// A law: with 20 pages for each user, 48 frames and no busy times the steps that `compiled_sums_boot` asks for are 138,290,055, and 464,561 more for each
/// `line` row.
pub fn compiled_steps_are_few()
    ensures { CompiledStepsAreFew }
{}
