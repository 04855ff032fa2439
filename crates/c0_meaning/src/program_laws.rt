// The laws of what is seen of a user program: each function says one, and does nothing.

ghost use Rattle.c0_meaning.specs.ProgramLaws.{AnswersAheadDontMatter, ArgumentsStay, MadeIsAsked, ProgramsIgnoreSpans};

/// Later answers change nothing of what a program asks before them.
pub fn answers_ahead_dont_matter()
    ensures { AnswersAheadDontMatter }
{}

/// Within more units the arguments so far stay as they are.
pub fn arguments_stay()
    ensures { ArgumentsStay }
{}

/// A unit without its spans in the source is the program that the unit is.
pub fn programs_ignore_spans()
    ensures { ProgramsIgnoreSpans }
{}

/// What the run of a program's `main` makes is what the program asks.
pub fn what_is_made_is_asked()
    ensures { MadeIsAsked }
{}
