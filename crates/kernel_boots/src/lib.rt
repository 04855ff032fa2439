//! What each boot of a kernel prints, by what was proved of its runs: each function is a law over the headline of each call of
//! `cvm_shell::run`. A boot here is one by `boot`, `rom` or `sample` under the headline's premises (`IsHonest`: among them that no call
//! fails), with another status than 8. What two boots print of the same user is compared in `separation`.
#![tactic(auto)]

ghost use Rattle.kernel_boots.specs.Boots.{BootsStand, RunsItsSource};
ghost use Rattle.kernel_boots.specs.Guardeds.{GuardedKernelsBoot};
ghost use Rattle.kernel_boots.specs.Mailboxes.{MailboxesBoot};
ghost use Rattle.kernel_boots.specs.RoundRobins.{RoundRobinsBoot};
ghost use Rattle.kernel_boots.specs.Semaphores.{SemaphoresBoot};
ghost use Rattle.kernel_boots.specs.Stands.{ResumesStand, SavesStand, StatesRest, TracesStand};
ghost use Rattle.kernel_boots.specs.Systems.{BootsAreChains};

use cvm_model::reasoning::{runs_are_chains, runs_are_lawful};
use cvm_model::{units_replay, users_are_isolated};
use kernel_linker::laws::accepted_systems_are_of_their_images;
use kernel_theorems::guarded::{guarded_never_faults, text_is_guarded};
use kernel_theorems::mailbox::{messages_are_delivered, text_is_mailbox};
use kernel_theorems::round_robin::{round_robin_is_fair, text_is_round_robin};
use kernel_theorems::semaphore::{at_most_one_is_inside, text_is_semaphore};
use kernel_theorems::texts_mean_trees;
use mips_table::runs::{runs_are_taken_up, turns_are_counted};
use run_scripts::laws::machines_rest;

pub mod separation;

/// A law: what a boot, a trace or a sample runs is the unit of the source of its image.
pub fn boots_run_their_source()
    ensures { RunsItsSource }
{
    accepted_systems_are_of_their_images();
}

/// A law: each boot with no failed call printed the text of the state of its own run at the step where it ended, and its status is by that state.
pub fn boots_show_their_states()
    ensures { BootsStand }
{
    runs_are_lawful();
}

/// A law: each trace with no failed call printed the user's journal, and the user's machine, of the state of its own run at the step where it ended, and
/// its status is by that state.
pub fn traces_show_their_states()
    ensures { TracesStand }
{
    runs_are_lawful();
    units_replay();
    users_are_isolated();
}

/// A law: each save with no failed call printed the text of the state of its own run as its boot does; or where its run was saved, the rows of the running
/// state behind all turns that were asked for, in which the machine rests.
pub fn saves_show_their_states()
    ensures { SavesStand }
{
    runs_are_lawful();
    turns_are_counted();
    runs_are_taken_up();
}

/// A law: each resume of a saved run, with no failed call, printed behind what that run had printed the rest of the text of the state of the whole run.
pub fn resumes_show_their_states()
    ensures { ResumesStand }
{
    runs_are_lawful();
}

/// A law: where such a run ended, of a boot, a trace, a save or a resume, the machine rests as the state says at which it stands, and stands for it.
pub fn states_rest()
    ensures { StatesRest }
{
    machines_rest();
}

/// A law: the state that a boot shows is reached by a chain of dispatches from the start, whose rows it printed, whatever its kernel and its users are.
pub fn boots_are_chains()
    ensures { BootsAreChains }
{
    runs_are_lawful();
    runs_are_chains();
}

/// A law: each boot of an image with the round robin's text and three users prints its rows in order, and its status is no kernel's fault.
pub fn round_robins_boot()
    ensures { RoundRobinsBoot }
{
    accepted_systems_are_of_their_images();
    runs_are_lawful();
    round_robin_is_fair();
    texts_mean_trees();
    text_is_round_robin();
}

/// A law: no boot of an image with the guarded kernel's text and a user ends with a kernel's fault.
pub fn guarded_kernels_boot()
    ensures { GuardedKernelsBoot }
{
    accepted_systems_are_of_their_images();
    runs_are_lawful();
    guarded_never_faults();
    texts_mean_trees();
    text_is_guarded();
}

/// A law: in each boot of an image with the mailbox's text and two users, by the rows that it prints and their dispatches, what user 2 was given is what
/// user 1 was told to be taken, and its status is no kernel's fault.
pub fn mailboxes_boot()
    ensures { MailboxesBoot }
{
    accepted_systems_are_of_their_images();
    runs_are_lawful();
    messages_are_delivered();
    texts_mean_trees();
    text_is_mailbox();
}

/// A law: in each boot of an image with the semaphore's text and three users, by the rows that it prints and their dispatches, at most one user is inside, and
/// its status is no kernel's fault.
pub fn semaphores_boot()
    ensures { SemaphoresBoot }
{
    accepted_systems_are_of_their_images();
    runs_are_lawful();
    at_most_one_is_inside();
    texts_mean_trees();
    text_is_semaphore();
}
