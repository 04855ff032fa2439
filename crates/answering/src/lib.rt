//! A whole system in which users are answered: a kernel, and two users that each ask it once and then end, any or compiled of C0.
#![tactic(auto)]

ghost use Rattle.answering.specs.Boots.{AnyUsersAnswered};
ghost use Rattle.answering.specs.Compiled.{AnsweredStepsAreFew, AnyCountedProgramsAnswered, AnyProgramsAnswered, CompiledAnswersBoot};
ghost use Rattle.answering.specs.Property.{AnswersAreRight};
ghost use Rattle.answering.specs.Text.{text};
ghost use Rattle.answering.specs.Tree.{kernel_tree};
ghost use Rattle.kernel_theorems.specs.Text.{IsTextOf};

use cvm_model::reasoning::runs_are_lawful;
use cvm_shell::laws::linked_users_have_their_programs;
use kernel_linker::laws::accepted_systems_are_of_their_images;
use kernel_theorems::{program_texts_mean_trees, texts_mean_trees};
use mips_table::runs::turns_are_counted;
use program_systems::{
    adders_are_counted, adders_call, counts_tell, images_ignore_spans, programs_ask_and_end,
    texts_are_adders,
};
use run_bounds::{bounds_are_small, lines_taken_are_few, raised_lines_are_few};

/// A law: whatever lines are raised, each turn ends, each user's machine is after its own steps and what it was answered, and the total is the sum of what
/// was brought.
pub fn answers_are_right()
    ensures { AnswersAreRight }
{
    runs_are_lawful();
}

/// A law: the text is that of the tree.
pub fn text_is_tree()
    ensures { IsTextOf 21000 text kernel_tree }
{}

/// A law: each boot (`boot`, `rom` or `sample`, with no failed call) of an image with this text and two users that ask and end, under every schedule, printed
/// the text of a state of its run in which the total is the sum of what was brought; and with as many turns as the users' steps, the schedule's `line` rows
/// and five, and the steps for them, it halted, and reports the sum and each user behind its end.
pub fn any_users_answered()
    ensures { AnyUsersAnswered }
{
    accepted_systems_are_of_their_images();
    runs_are_lawful();
    turns_are_counted();
    bounds_are_small();
    lines_taken_are_few();
    raised_lines_are_few();
    texts_mean_trees();
    text_is_tree();
}

/// A law: each boot of an image with the text of answering and two such programs, under every schedule, printed the text of a state of its run in which the
/// total is the sum of what was brought and each program has what it was answered; and with enough turns and steps, which the programs' units say, it halted
/// behind both ends and reports the sum.
pub fn any_programs_answered()
    ensures { AnyProgramsAnswered }
{
    programs_ask_and_end();
    any_users_answered();
}

/// A law: where it is known behind how many steps they trap, up to their calls and from their answers on, it halts with as many turns as these, five, and the
/// schedule's `line` rows.
pub fn any_counted_programs_answered()
    ensures { AnyCountedProgramsAnswered }
{
    programs_ask_and_end();
    counts_tell();
    any_users_answered();
}

/// A law: so it is of each boot of an image that was linked of what `compile program` put of the two texts, with a total of 265, and with 359 turns more than
/// the schedule has `line` rows.
pub fn compiled_answers_boot()
    ensures { CompiledAnswersBoot }
{
    accepted_systems_are_of_their_images();
    linked_users_have_their_programs();
    program_texts_mean_trees();
    texts_are_adders();
    adders_call();
    images_ignore_spans();
    adders_are_counted();
    any_counted_programs_answered();
}

/// A law: with 20 pages for each user, 48 frames and no busy times the steps that it asks for are 144,855,031, and 464,561 more for each `line` row.
pub fn answered_steps_are_few()
    ensures { AnsweredStepsAreFew }
{}
