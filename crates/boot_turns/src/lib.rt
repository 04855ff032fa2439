//! Runs from a start: what the turns of the machine come to, and what is printed of them.
//!
//! The definitions are in `specs/`. Each law and each worked row is the contract of a function that does nothing.
#![tactic(auto)]

ghost use Rattle.c0_tree.specs.Tree.{CUnit};
ghost use Rattle.c0_meaning.specs.TypedState.{IsTypedState};
ghost use Rattle.boot_turns.specs.RunMachines.{MachinesRun, RunsStayTyped};
ghost use Rattle.boot_turns.specs.RomStarts.{RomStarts};
ghost use Rattle.boot_turns.specs.Advances.{LoopsAdvance};
ghost use Rattle.boot_turns.specs.AnyTurns.{LoopsMakeTurns};
ghost use Rattle.boot_turns.specs.Entries.{TracesGrow};
ghost use Rattle.boot_turns.specs.JournalText.{RowsFollow};
ghost use Rattle.boot_turns.specs.TurnScript.{StepsJoin, RowsComeLast};

mod answers;
pub mod completion;
mod following;
mod primitives;
mod registers;
mod rows;
pub mod tracer;

pub use answers::{RunFault, Turn, View};
use boot_rom::the_machine_boots_from_its_rom;
use layer_contract::{
    starts_go_on, the_loaded_machine_resets, the_loaded_machine_starts, users_follow_linked,
};
use layer_map::memory_is_whole;
use mips_table::runs::turns_are_counted;
pub use rows::{a_line_at_each_step, machine_rows};

/// A law: from any start, over a layer that meets its laws, the machine goes on where the CVM run is defined, within its bound and the steps by which
/// the layer took over late; the run is defined for the turns that are complete; and at most two page faults are handled before a turn. Where it ends, it rests
/// as the CVM run says.
pub fn machines_run()
    ensures { (u : CUnit) → MachinesRun (IsTypedState u) }
{
    turns_are_counted();
    starts_go_on();
    users_follow_linked();
}

/// A law: the kernel's data is typed after every number of turns for which the CVM run from a start is defined.
pub fn runs_stay_typed()
    ensures { (u : CUnit) → RunsStayTyped (IsTypedState u) }
{
    starts_go_on();
    users_follow_linked();
}

/// A law: from any start, of a user nothing is shown before the first step, and each step of a machine that is on adds its entries to what is shown:
/// those with which a turn begins, and those of a primitive that returns.
pub fn traces_grow()
    ensures { (u : CUnit) → TracesGrow (IsTypedState u) }
{
    starts_go_on();
    users_follow_linked();
}

/// A law: the machine with the ROM is a start, from which the layer takes over after the ROM's run.
pub fn the_rom_starts()
    ensures { RomStarts }
{
    the_loaded_machine_resets();
    the_loaded_machine_starts();
    the_machine_boots_from_its_rom();
    memory_is_whole();
}

/// A law: a loop that steps a machine to the end of turns makes the turns of each run from a start that stands there and goes on.
pub fn loops_advance()
    ensures { LoopsAdvance }
{
    machines_run();
}

/// A law: a loop that steps a machine to the end of turns makes turns of any run, whatever state that begins from.
pub fn loops_make_turns()
    ensures { LoopsMakeTurns }
{}

/// A law: the rows of a journal stay as it grows, and the last steps have theirs at its end.
pub fn journal_rows_follow()
    ensures { RowsFollow }
{}

/// A law: the script of steps is that of the first and then that of those behind them; and of a boot, where the last step alone adds a row, all transfers
/// come before it.
pub fn step_scripts_join()
    ensures join { StepsJoin }
    ensures last { RowsComeLast }
{}
