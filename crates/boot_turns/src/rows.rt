// Worked rows of the definitions of turns. Each function says some, and does nothing.

ghost use Rattle.boot_turns.specs.WorkedRows.{AreEarlyLinesTaken, AreLateLinesLeft, AreLinesOfASchedule, AreTurnsCounted};
ghost use Rattle.boot_turns.specs.WorkedRows.{AreUsersInterrupted, IsInputTaken, IsTransferDue};

/// The turns of a small machine, with a line at each step from its start until it is off.
pub fn a_line_at_each_step()
    ensures early { AreEarlyLinesTaken }
    ensures in_user_mode { AreUsersInterrupted }
    ensures late { AreLateLinesLeft }
    ensures schedule { AreLinesOfASchedule }
{}

/// The turns of a machine of two frames, input that is taken by loads and by a fetch, and the step in which a transfer is due.
pub fn machine_rows()
    ensures turns { AreTurnsCounted }
    ensures input { IsInputTaken }
    ensures transfer { IsTransferDue }
{}
