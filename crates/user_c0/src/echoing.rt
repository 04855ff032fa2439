//! A worked example: what is known of a program that serves for ever.

ghost use Rattle.user_c0.specs.Echoing.{EchoesForEver};

use crate::users::traps_are_known;
use c0_meaning::program_laws::{
    answers_ahead_dont_matter, programs_ignore_spans, what_is_made_is_asked,
};

/// The program tells each of its answers, for ever.
pub fn echoes_for_ever()
    ensures { EchoesForEver }
{
    programs_ignore_spans();
    answers_ahead_dont_matter();
    what_is_made_is_asked();
    traps_are_known();
}
