//! Programs in C0 as users of whole systems: when their machines trap and by what, in how many steps, and two programs that each bring a number by `trap`. Each
//! function is a law.
#![tactic(auto)]

ghost use Rattle.program_systems.specs.AdderTexts.{TextsAreAdders};
ghost use Rattle.program_systems.specs.Adders.{AddersAreCounted, AddersCall};
ghost use Rattle.program_systems.specs.Asking.{ProgramsAskAndEnd};
ghost use Rattle.program_systems.specs.Coming.{CallsCome, EndsCome, FirstCallsCome, ProgramsCome};
ghost use Rattle.program_systems.specs.Counts.{CountsTell, ImagesIgnoreSpans};
ghost use Rattle.program_systems.specs.Dispatches.{DispatchesAnswerCalls};

use user_c0::users::{ints_are_told, programs_stay, programs_trap, traps_are_known, users_go_on};

/// A law: a program whose next call or end is due within some units traps within their steps.
pub fn programs_come()
    ensures { ProgramsCome }
{
    users_go_on();
    programs_stay();
}

/// A law: where its next call is known it comes to that call, and goes on with what it is answered.
pub fn calls_come()
    ensures { CallsCome }
{
    users_go_on();
    programs_come();
    programs_trap();
    traps_are_known();
}

/// A law: where it is known to end without a further call, it comes to its end.
pub fn ends_come()
    ensures { EndsCome }
{
    users_go_on();
    programs_come();
    programs_trap();
    traps_are_known();
}

/// A law: a dispatch for a program's call that sets register 2 of its caller is that call answered, as an event of the program, which is told what was set; one
/// that changes no machine is the call without an answer.
pub fn dispatches_answer()
    ensures { DispatchesAnswerCalls }
{
    users_go_on();
    ints_are_told();
}

/// A law: so the image of a program whose first call is known comes to that call.
pub fn first_calls_come()
    ensures { FirstCallsCome }
{
    users_go_on();
    calls_come();
}

/// A law: the image of a program that is known to call, and to end where it is answered so, asks, goes on with the answer, and ends.
pub fn programs_ask_and_end()
    ensures { ProgramsAskAndEnd }
{
    users_go_on();
    calls_come();
    ends_come();
    ints_are_told();
}

/// A law: where the steps of a machine are counted up to each of its traps, where it is answered so, the traps come behind just these.
pub fn counts_tell()
    ensures { CountsTell }
{}

/// A law: a program's image doesn't depend on the spans of its parts in the source, so it is the image of the tree that its text means.
pub fn images_ignore_spans()
    ensures { ImagesIgnoreSpans }
{}

/// A law: the two programs call, with 55 and with 210, and then end, whatever they are answered.
pub fn adders_call()
    ensures { AddersCall }
{}

/// A law: their images call behind 120 and behind 220 steps, and end behind 7 more.
pub fn adders_are_counted()
    ensures { AddersAreCounted }
{
    counts_tell();
}

/// A law: the texts are those of the trees.
pub fn texts_are_adders()
    ensures { TextsAreAdders }
{}
