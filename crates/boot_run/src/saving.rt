// A boot that is to be saved: it stops where the wanted turns are complete, or ends as a boot does.
ghost use Rattle.std.specs.Prelude.{◌≢◌, ◌≤◌, IfOk};
ghost use Rattle.layer_contract.specs.Boots.{BootFollows};
ghost use Rattle.boot_run.specs.OneTurn.{CanClose, CanRun};
ghost use Rattle.boot_run.specs.LoadEnds.{pages_needed};
ghost use Rattle.boot_run.specs.Loaded.{boot_load};
ghost use Rattle.boot_run.specs.RunCalls.{LoadsRun};
ghost use Rattle.layer_contract.specs.Follows.{loaded};
ghost use Rattle.boot_run.specs.LoadedPages.{user_pages};
ghost use Rattle.boot_run.specs.Loading.{system_of};
ghost use Rattle.boot_run.specs.LoadScript.{load_script};
ghost use Rattle.boot_run.specs.SaveCalls.{SaveScript, StopCalls, ToStopCalls};
ghost use Rattle.boot_run.specs.Saving.{RunStops, StaysThere, StopsSaved};

use crate::laws::premises_hold;
use crate::load::{LoadFault, Setup};
use crate::run::Run;
use crate::whole::{Limits, RunEnd, close, end_at, go};
use boot_turns::{View, machines_run};
use cvm_outside::{Sectors, Sink};
use layer_contract::Layer;
use mips_table::runs::turns_are_counted;

// Closes a run that has ended; one that goes on stops there, untouched.
fn stop<L: Layer + Drop, D: Sectors, O: Sink>(run: &mut Run<L>, disk: &mut D, out: &mut O) -> RunEnd
    requires can { CanClose run.old (D.size disk.old) }
    ensures stays { StaysThere run.old disk.old out.old run.new disk.new out.new result }
    ensures unput { result ≢ RunEnd.ShelfFault }
    ensures script { StopCalls O.Sink D.Sectors run.old (out.old, disk.old) (out.new, disk.new) result }
{
    let over = run.ended().is_some();
    if over {
        return close(run, disk, out);
    }
    RunEnd::Stopped
}

// Runs what was loaded until so many turns are complete, or to its end.
fn run_to_stop<L: Layer + Drop, D: Sectors, O: Sink>(
    run: &mut Run<L>,
    limits: Limits,
    disk: &mut D,
    out: &mut O,
) -> RunEnd
    requires can { CanRun limits.steps run.old (D.size disk.old) }
    ensures stops { RunStops D.size D.sectors limits.turns limits.steps run.old disk.old run.new disk.new result }
    ensures unput { result ≢ RunEnd.ShelfFault }
    ensures script { ToStopCalls O.Sink D.Sectors run.old limits.turns limits.steps (out.old, disk.old) (out.new, disk.new) result }
{
    machines_run();
    turns_are_counted();
    let mut budget = limits.steps;
    match go(run, limits.turns, &mut budget, disk, out) {
        Ok(()) => stop(run, disk, out),
        Err(fault) => end_at(fault),
    }
}

/// Boots what is to be saved: loads, and makes turns until so many are complete or the run has ended or met a fault, at most so many steps. The rows
/// of the dispatches are printed, and where the run halted its end and the report. The run is answered with how it ended: nothing was put yet.
///
/// # Errors
///
/// As [`Run::load`]; nothing is printed then.
pub fn run_to_save<L: Layer + Drop, D: Sectors, O: Sink>(
    setup: Setup<L>,
    limits: Limits,
    disk: &mut D,
    out: &mut O,
) -> Result<(Run<L>, RunEnd), LoadFault>
    requires follows { BootFollows (L.image setup.layer) (L.sizes setup.layer) (L.map setup.layer) setup.boot }
    requires some { 1 ≤ limits.turns }
    ensures stops { StopsSaved D.size D.sectors setup.boot setup.schedule limits.turns limits.steps disk.old disk.new result }
    ensures unput { IfOk result (λ a. a.1 ≢ RunEnd.ShelfFault) }
    ensures loads { LoadsRun D.Sectors setup.boot View.Boot (boot_load setup.boot setup.schedule) (out.old, disk.old) (out.new, disk.new) result }
    ensures script { SaveScript O.Sink D.Sectors (system_of setup.boot setup.schedule) setup.schedule (loaded (system_of setup.boot setup.schedule))
        limits.turns limits.steps (load_script (user_pages (system_of setup.boot setup.schedule)) (pages_needed setup.boot))
        (out.old, disk.old) (out.new, disk.new) result }
{
    machines_run();
    premises_hold(&setup.layer, &setup.boot, &setup.schedule, disk);
    let mut run = Run::load(
        setup.alloc,
        setup.layer,
        setup.boot,
        setup.schedule,
        View::Boot,
        disk,
    )?;
    let end = run_to_stop(&mut run, limits, disk, out);
    Ok((run, end))
}
