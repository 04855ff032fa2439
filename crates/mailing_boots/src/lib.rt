//! What each boot of the system with a mailbox prints: of any sender and receiver, and of two programs that are compiled of C0. Each function is a law.
#![tactic(auto)]

ghost use Rattle.mailing_boots.specs.Boots.{AnyUsersMail};
ghost use Rattle.mailing_boots.specs.Compiled.{AnyCountedProgramsMail, AnyProgramsMail, CompiledMailBoots, MailStepsAreFew};
ghost use Rattle.mailing_boots.specs.Mailers.{MailersAreCounted, MailersCall};
ghost use Rattle.mailing_boots.specs.Texts.{TextsAreMailers};
ghost use Rattle.mailing_boots.specs.Through.{CountsTellThrough, ProgramsComeThrough};

use c0_meaning::program_laws::answers_ahead_dont_matter;
use cvm_model::reasoning::runs_are_lawful;
use cvm_shell::laws::linked_users_have_their_programs;
use kernel_linker::laws::accepted_systems_are_of_their_images;
use kernel_theorems::{program_texts_mean_trees, texts_mean_trees};
use mailing::{mail_ends, mail_is_kept, text_is_tree};
use mips_table::runs::turns_are_counted;
use program_systems::{calls_come, counts_tell, ends_come, images_ignore_spans};
use run_bounds::{bounds_are_small, lines_taken_are_few, raised_lines_are_few};
use user_c0::users::{ints_are_told, users_go_on};

/// A law: the image of a program whose calls are all known comes through them, one after another, to its end, within the steps of its units.
pub fn programs_come_through()
    ensures { ProgramsComeThrough }
{
    users_go_on();
    calls_come();
    ends_come();
    ints_are_told();
    answers_ahead_dont_matter();
}

/// A law: where it is known behind how many steps a machine traps, from answer to answer, it makes just these where it makes its calls in turn.
pub fn counts_tell_through()
    ensures { CountsTellThrough }
{
    counts_tell();
}

/// A law: each boot (`boot`, `rom` or `sample`, with no failed call) of an image with the kernel's text, a sender and a receiver, under every schedule, printed
/// the text of a state of its run in which what was sent was printed, once and in order, but for three messages at most; and with as many turns as both
/// users' steps, the schedule's `line` rows and one, and the steps for them, it halted and reports all messages in order.
pub fn any_users_mail()
    ensures { AnyUsersMail }
{
    accepted_systems_are_of_their_images();
    runs_are_lawful();
    turns_are_counted();
    bounds_are_small();
    lines_taken_are_few();
    raised_lines_are_few();
    texts_mean_trees();
    text_is_tree();
    mail_is_kept();
    mail_ends();
}

/// A law: so it is of the images of two programs that send and receive known numbers, with turns and steps by their units.
pub fn any_programs_mail()
    ensures { AnyProgramsMail }
{
    programs_come_through();
    any_users_mail();
}

/// A law: where the programs' steps are known, with turns and steps by just these.
pub fn any_counted_programs_mail()
    ensures { AnyCountedProgramsMail }
{
    programs_come_through();
    counts_tell_through();
    any_users_mail();
}

/// A law: the two programs send the numbers from 1 to 10, and receive ten and have each printed.
pub fn mailers_call()
    ensures { MailersCall }
{}

/// A law: their images make 140 and 170 untrapped steps.
pub fn mailers_are_counted()
    ensures { MailersAreCounted }
{
    counts_tell();
}

/// A law: the texts are those of the trees.
pub fn texts_are_mailers()
    ensures { TextsAreMailers }
{}

/// A law: so it is of each boot of an image that was linked of what `compile program` put of the two texts: the numbers from 1 to 10 are printed in order,
/// and it halts with 343 turns more than the schedule has `line` rows, which are those that it takes without them.
pub fn compiled_mail_boots()
    ensures { CompiledMailBoots }
{
    accepted_systems_are_of_their_images();
    linked_users_have_their_programs();
    program_texts_mean_trees();
    texts_are_mailers();
    mailers_call();
    images_ignore_spans();
    mailers_are_counted();
    any_counted_programs_mail();
}

/// A law: with 32 pages for each user, 48 frames and no busy times the steps that `compiled_mail_boots` asks for are 142,658,439, and 526,097 more for each
/// `line` row.
pub fn steps_are_few()
    ensures { MailStepsAreFew }
{}
