// A run that was taken up from saved words goes on as the run that was saved.
ghost use Rattle.std.specs.Prelude.{◌≡◌, ℕ, ◌+◌, ◌-◌, ◌<◌, ◌≤◌, ◌^◌, List, [], length, slice_index, IfOk};
ghost use Rattle.layer_map.specs.Map.{memory_words};
ghost use Rattle.mips_machine.specs.Machine.{state_of};
ghost use Rattle.mips_machine.specs.Saved.{saved, AreSaved, CanBeSaved};
ghost use Rattle.boot_run.specs.OneTurn.{CanClose};
ghost use Rattle.boot_run.specs.AnyScripts.{RestScript};
ghost use Rattle.boot_run.specs.SavedFiles.{SavedBootsAreOfRuns};
ghost use Rattle.boot_run.specs.RunEnds.{EndsUnsaved};

use crate::run::Run;
use crate::whole::{Limits, RunEnd, run_to_end};
use boot_turns::machines_run;
use cvm_outside::{Sectors, Sink};
use layer_contract::Layer;
use layer_map::{Map, memory_is_whole, parts_are_in_order};
use mips_machine::Machine;
use mips_table::runs::{
    a_new_machine_is_steady, machines_stay_steady, runs_are_taken_up, turns_are_counted,
};
use schedule_file::Schedule;
use std::alloc::{AllocError, Global};

// The machine that these words tell, under a schedule.
//
// # Errors
//
// Want of memory.
pub(crate) fn resumed_machine(
    alloc: Global,
    map: &Map,
    schedule: Schedule,
    from: &[u32],
) -> Result<Machine, AllocError>
    requires { AreSaved (memory_words map.now) schedule.inputs from.now }
    ensures words { IfOk result (λ m. saved schedule.inputs (state_of m []) (slice_index from.now 5) (slice_index from.now 6) ≡ from.now) }
    ensures ready { IfOk result (λ m. (sectors : List (List ℕ)) → CanBeSaved schedule.inputs (state_of m sectors)) }
    ensures rows { IfOk result (λ m. m.rows ≡ schedule) }
    ensures memory { IfOk result (λ m. length m.hardware.memory ≡ memory_words map.now) }
{
    let mut machine = Machine::new(alloc, map.memory_frames(), schedule)?;
    machine.load_state(from);
    Ok(machine)
}

// How many turns are left of so many.
fn turns_left<L: Layer>(run: &Run<L>, turns: u32) -> u32
    requires { run.now.turns ≤ turns }
    ensures { result ≡ turns - run.now.turns }
{
    turns - run.turns_done() as u32
}

// How many steps are left of so many: none where the machine made no fewer.
fn steps_left<L: Layer + Drop>(run: &Run<L>, steps: u64) -> u64
    ensures value { result ≡ steps - run.now.machine.time }
    ensures few { run.now.machine.time + result < 2 ^ 64 }
{
    steps.saturating_sub(run.steps())
}

/// A law: the machine that was saved of a boot is one of the system's run, so that its file is taken up.
pub fn saved_boots_are_of_runs()
    ensures { SavedBootsAreOfRuns }
{
    a_new_machine_is_steady();
    machines_stay_steady();
    runs_are_taken_up();
    turns_are_counted();
    machines_run();
    parts_are_in_order();
    memory_is_whole();
}

/// Goes on with a run that was taken up: makes turns until so many are complete, counted from the start of the saved run, or the run has ended or met a
/// fault. As many steps at most are made, counted from there, too: none where the saved run had made no fewer. What is printed is what
/// [`run_whole`](crate::run_whole) prints from there on.
pub fn run_on<L: Layer + Drop, D: Sectors, O: Sink>(
    run: &mut Run<L>,
    limits: Limits,
    disk: &mut D,
    out: &mut O,
) -> RunEnd
    requires can { CanClose run.old (D.size disk.old) }
    requires done { run.old.turns ≤ limits.turns }
    ensures ends { EndsUnsaved result }
    ensures script { RestScript O.Sink D.Sectors run.old (limits.turns - run.old.turns) (limits.steps - run.old.machine.time)
        (out.old, disk.old) (out.new, disk.new) result }
{
    let turns = turns_left(run, limits.turns);
    let steps = steps_left(run, limits.steps);
    run_to_end(run, Limits { turns, steps }, disk, out)
}
