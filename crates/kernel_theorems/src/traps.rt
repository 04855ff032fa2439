// What is known of the data of traps.

ghost use Rattle.kernel_theorems.specs.Traps.{StepsLeave, StepsTell, TrapsComeOfSteps};

/// A law: each dispatch of a run for a trap is one for a step of the current user's machine, and its data are what that step tells.
pub fn traps_come_of_steps()
    ensures { TrapsComeOfSteps }
{}

/// A law, for a dispatch for a trap under the rule for runs: what the data of a trap tell of the machine whose step it is.
pub fn steps_tell()
    ensures { StepsTell }
{}

/// A law: a step that traps leaves its machine's registers and memory as they were, and its pc at the instruction or, for an overflow and a system call,
/// behind it.
pub fn steps_leave()
    ensures { StepsLeave }
{}
