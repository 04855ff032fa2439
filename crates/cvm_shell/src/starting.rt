// A system is loaded for its session's start, and run.
ghost use Rattle.std.specs.Prelude.{◌≤◌};
ghost use Rattle.cvm_shell.specs.Does.{SessionCalls, SessionPasts};
ghost use Rattle.cvm_shell.specs.Stages.{CallAnswers, SystemFollows};

use crate::boot::Ready;
use boot_run::{Limits, LoadFault, RunEnd, Setup, pasts_exist, run_rom, run_whole};
use cvm_outside::{Sectors, Sink};
use run_scripts::{Session, StartPoint};
use std::alloc::Global;

// Loads a system for its session's start, at the loaded machine or at the one with a boot ROM, and runs it to its end.
pub(crate) fn load_and_run<O: Sink, D: Sectors>(
    alloc: Global,
    ready: Ready,
    session: Session,
    out: &mut O,
    disk: &mut D,
) -> Result<RunEnd, LoadFault>
    requires follows { SystemFollows ready }
    requires some { 1 ≤ session.turns }
    ensures answers { CallAnswers ready session (D.size disk.old) result }
    ensures calls { SessionCalls O.Sink D.Sectors ready session result (out.old, disk.old) (out.new, disk.new) }
    ensures pasts { SessionPasts ready session (D.size disk.old) (D.sectors disk.old) }
{
    pasts_exist(&ready.layer, &ready.boot, &ready.schedule, disk);
    let limits = Limits {
        turns: session.turns,
        steps: session.steps,
    };
    let setup = Setup {
        alloc,
        layer: ready.layer,
        boot: ready.boot,
        schedule: ready.schedule,
    };
    match session.start {
        StartPoint::Loaded => run_whole(setup, session.view, limits, disk, out),
        StartPoint::Rom => run_rom(setup, session.view, limits, disk, out),
    }
}
