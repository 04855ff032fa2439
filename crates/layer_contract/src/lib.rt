//! What a layer promises, and when it fits what is booted.
//!
//! Each law is the contract of a function that does nothing.
#![tactic(auto)]

ghost use Rattle.std.specs.Prelude.{◌≤◌};
ghost use Rattle.mips_table.specs.Device.{Environment, HasEightLines};
ghost use Rattle.layer_contract.specs.Layer.{ResetStands, NoneIsDue};
ghost use Rattle.layer_contract.specs.Follows.{LoadedResets};
ghost use Rattle.layer_contract.specs.Starts.{LoadedKeeps, LoadedStarts, StartsCall, StartsGoOn};
ghost use Rattle.layer_contract.specs.Users.{FaultsAsk, SomeStores, UserStepsLinked, UserStepsOrFaults, UsersAreInterrupted};
ghost use Rattle.layer_contract.specs.Samples.{AStateStands, ASpreadStateStands};

mod boot;
mod entry;
mod layer;
mod maker;
mod registers;

pub use boot::Boot;
pub use entry::Entry;
pub use layer::Layer;
pub use maker::LayerMaker;
use mips_table::runs::words_stay_words;
pub use registers::{ANSWER, ARGUMENT, KEPT, RETURN};

/// A law: the loaded machine's first step takes the reset.
pub fn the_loaded_machine_resets()
    ensures { LoadedResets }
{}

/// A law: the state after the reset stands for the start of a run.
pub fn the_reset_stands()
    ensures { ResetStands }
{}

/// A law: where no command is under way and a step begins none, the disk ends none with it.
pub fn no_command_is_due()
    ensures { NoneIsDue }
{}

/// A law: there is a state that stands for the start of a run, and one in user mode.
pub fn a_state_stands()
    ensures { (x : Environment) → HasEightLines x → 4 ≤ x.count → AStateStands x }
{}

/// A law: there is a state of two users that stands for the start of a run, with a page in a frame of its own, one in a shared frame, one in the
/// zero frame and one in its sector.
pub fn a_spread_state_stands()
    ensures { (x : Environment) → HasEightLines x → 8 ≤ x.count → ASpreadStateStands x }
{}

/// A law: the loaded machine is a start, from which the layer takes over after one step, and its sectors past the users' pages are the disk's.
pub fn the_loaded_machine_starts()
    ensures start { LoadedStarts }
    ensures beyond { LoadedKeeps }
{
    the_loaded_machine_resets();
}

/// A law: until the layer takes over, turn 0 goes on.
pub fn starts_go_on()
    ensures { StartsGoOn }
{}

/// A law: over a layer that was made for what is booted, each start comes to the call of `dispatch` for the start of the run.
pub fn the_kernel_is_called<L: Layer>(layer: &L)
    ensures { StartsCall (L.image layer.now) (L.sizes layer.now) (L.map layer.now) }
{
    layer.keeps_laws();
}

/// A law: a step of a user that takes no handled fault is the flat machine's step, its trap, or the taking of the pending lines, where the linked words
/// are as many as the map says.
pub fn users_follow_linked()
    ensures { UserStepsLinked }
{
    words_stay_words();
}

/// A law: any step of a user is one of these, or takes a handled fault, where the linked words end before the zero frame.
pub fn users_follow_or_fault()
    ensures { UserStepsOrFaults }
{
    words_stay_words();
}

/// A law: an interrupt of a user is taken with nothing changed but the lines latched, and isn't the reset.
pub fn users_are_interrupted()
    ensures { UsersAreInterrupted }
{
    words_stay_words();
}

/// A law: a handled fault asks for a page that the user's step touches and that isn't to be had.
pub fn faults_ask()
    ensures { FaultsAsk }
{}

/// A law: there is a state that meets the premises, in which a user's step stores through its page table.
pub fn a_user_stores()
    ensures { SomeStores }
{}
