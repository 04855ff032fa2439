// Separation of users: over a kernel that changes no user's machine, what is printed of a user is a function of its own words and of how many steps it made,
// whatever the other users, the parameters, the schedule and the disk are.

ghost use Rattle.kernel_theorems.specs.RoundRobinText.{text as round_robin};
ghost use Rattle.kernel_boots.specs.OwnRuns.{RunsAreOwn};
ghost use Rattle.kernel_boots.specs.Separation.{
  BootsAgree,
  BootsPrintOwn,
  SourceChangesNone,
  SourceSeparates,
  TextsChangeNone,
  TracesAreOwn,
};

use crate::{boots_are_chains, boots_run_their_source};
use called_primitives::readers_change_none;
use cvm_model::{units_replay, users_are_isolated};
use kernel_linker::laws::accepted_systems_are_of_their_images;
use kernel_theorems::round_robin::text_is_round_robin;
use kernel_theorems::texts_mean_trees;

/// A law: each kernel of a text whose tree calls no `vm_set`, `vm_resize`, `vm_put` or `vm_copy` changes no machine.
pub fn texts_change_none()
    ensures { TextsChangeNone }
{
    texts_mean_trees();
    readers_change_none();
}

/// A law: over a kernel that leaves a user alone, the user's machine and journal are those of its own steps, whatever the other users and the lines are.
pub fn runs_are_own()
    ensures { RunsAreOwn }
{
    users_are_isolated();
}

/// A law: each boot that is done (`boot`, `rom` or `sample`, with no failed call) of a source that changes no machine prints a block of each user, which is
/// that of the user's own words after its own steps.
pub fn boots_print_own()
    ensures { BootsPrintOwn }
{
    units_replay();
    users_are_isolated();
    runs_are_own();
    accepted_systems_are_of_their_images();
    boots_run_their_source();
    boots_are_chains();
}

/// A law: two boots in which a user has the same words and made as many steps print the same block of it, whatever else is in the two.
pub fn boots_agree()
    ensures { BootsAgree }
{
    units_replay();
    users_are_isolated();
    runs_are_own();
    accepted_systems_are_of_their_images();
    boots_run_their_source();
}

/// A law: a trace prints the steps and traps of the user by itself, and its machine behind them.
pub fn traces_are_own()
    ensures { TracesAreOwn }
{
    units_replay();
    users_are_isolated();
    runs_are_own();
    accepted_systems_are_of_their_images();
    boots_run_their_source();
}

/// A law: the round robin of three users changes no machine, and so separates its users.
pub fn round_robin_separates()
    ensures none { SourceChangesNone round_robin }
    ensures separates { SourceSeparates round_robin }
{
    texts_change_none();
    text_is_round_robin();
    boots_agree();
}
