//! A worked example: what is known of one program in every system.

ghost use Rattle.user_c0.specs.Summing.{SumsAreTold, SumsAreToldInSystems};

use crate::users::{programs_stay, traps_are_known, users_come};
use c0_meaning::program_laws::{answers_ahead_dont_matter, programs_ignore_spans};

/// The program tells the sum, and then it ends.
pub fn sums_are_told()
    ensures { SumsAreTold }
{
    programs_ignore_spans();
    answers_ahead_dont_matter();
    traps_are_known();
    programs_stay();
}

/// So it does in every system.
pub fn sums_are_told_in_systems()
    ensures { SumsAreToldInSystems }
{
    sums_are_told();
    users_come();
}
