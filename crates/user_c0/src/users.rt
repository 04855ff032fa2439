//! The laws of a user that runs a compiled program, step by step: each function says one, and does nothing.

ghost use Rattle.user_c0.specs.Systems.{JournalsAreAnswered, UsersCome};
ghost use Rattle.user_c0.specs.Users.{IntsAreTold, ProgramsStay, ProgramsTrap, TrapsAreKnown, UsersGoOn};

use crate::laws::images_run;
use c0_meaning::program_laws::{answers_ahead_dont_matter, arguments_stay};
use cvm_model::reasoning::journals_hold_words;
use cvm_model::{replays_join, users_are_isolated};

/// A user goes on with each of its steps, and with what the kernel answers.
pub fn users_go_on()
    ensures { UsersGoOn }
{
    replays_join();
}

/// A program is told the int that its kernel answers.
pub fn ints_are_told()
    ensures { IntsAreTold }
{}

/// Each trap of a program is its next call or its end.
pub fn programs_trap()
    ensures { ProgramsTrap }
{
    images_run();
    users_go_on();
    answers_ahead_dont_matter();
}

/// Where a program's next call or its end is known, so is its next trap.
pub fn traps_are_known()
    ensures { TrapsAreKnown }
{
    images_run();
    replays_join();
    programs_trap();
    arguments_stay();
}

/// While a program's next call or its end is due, its steps stay below those that it may take.
pub fn programs_stay()
    ensures { ProgramsStay }
{
    images_run();
    users_go_on();
}

/// A user of a system has come to where its journal says.
pub fn users_come()
    ensures { UsersCome }
{
    users_are_isolated();
}

/// A journal of the right form is answered.
pub fn journals_are_answered()
    ensures { JournalsAreAnswered }
{
    journals_hold_words();
}
