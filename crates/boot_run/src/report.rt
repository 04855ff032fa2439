// The end and the report of a run, printed from its machine.
ghost use Rattle.std.specs.Prelude.{◌≡◌, ◌≢◌, ◌++◌, length, Err};
ghost use Rattle.cvm_model.specs.Text.{steps_row as steps_text};
ghost use Rattle.boot_report.specs.Globals.{GlobalsAreInside, GlobalsStand};
ghost use Rattle.boot_report.specs.Texts.{end_row};
ghost use Rattle.boot_run.specs.Report.{kernel_rows, runs_now, closing_calls, trace_calls};
ghost use Rattle.boot_report.specs.Scripts.{of_report};
ghost use Rattle.cvm_outside.specs.Script.{Makes, Prints, blame};
ghost use Rattle.boot_turns.specs.RowScripts.{of_run};
ghost use Rattle.boot_report.specs.Stand.{CanReadUser, CanReadUsers};

use crate::layout::BootLayout;
use boot_report::journal_text::steps_row;
use boot_report::{ReportFault, put_end, put_globals, put_log, put_user_rows, put_users};
use boot_turns::RunFault;
use boot_turns::tracer::Tracer;
use c0_tree::Decl;
use cvm_outside::single_calls::put;
use cvm_outside::{Sectors, Sink, SinkFault};
use layer_map::Map;
use mips_machine::Machine;

// Prints the end, the globals and the console's log.
fn put_kernel<O: Sink>(
    machine: &Machine,
    layout: &BootLayout,
    decls: &[Decl],
    halted: bool,
    out: &mut O,
) -> Result<(), SinkFault>
    requires { GlobalsStand layout.now.map (length machine.now.hardware.memory) layout.now.offsets.items (length decls.now) }
    ensures { Prints O.Sink out.old out.new (kernel_rows halted machine.now layout.now.map layout.now.offsets.items decls.now) result }
{
    put_end(halted, out)?;
    put_globals(machine, &layout.map, &layout.offsets, decls, out)?;
    put_log(machine.log(), out)?;
    Ok(())
}

/// How a run stands between turns.
#[derive(Clone, Copy, Debug, PartialEq, Eq)]
pub(crate) struct Standing {
    /// Whether it halted.
    pub(crate) halted: bool,
    /// The current user.
    pub(crate) current: u32,
}

// The user that the machine of a run runs between turns: the current one, and once it halted none, 0.
fn runs_now(standing: Standing) -> u32
    ensures { result ≡ runs_now standing.halted standing.current }
{
    if standing.halted { 0 } else { standing.current }
}

// Prints the end and the report of a run that halted, or goes on.
//
// # Errors
//
// A fault of the disk or of the sink.
pub(crate) fn put_closing<D: Sectors, O: Sink>(
    machine: &Machine,
    layout: &BootLayout,
    decls: &[Decl],
    standing: Standing,
    disk: &mut D,
    out: &mut O,
) -> Result<(), ReportFault>
    requires many { length layout.now.offsets.items ≡ length decls.now }
    requires users { CanReadUsers layout.now.map (length machine.now.hardware.memory) (D.size disk.old) }
    requires inside { GlobalsAreInside layout.now.map layout.now.offsets.items }
    ensures { Makes O.Sink D.Sectors (out.old, disk.old) (out.new, disk.new)
        (closing_calls standing.halted standing.current machine.now (D.sectors disk.old) layout.now decls.now) of_report result }
{
    put_kernel(machine, layout, decls, standing.halted, out)?;
    let running = runs_now(standing);
    put_users(machine, &layout.map, running, disk, out)
}

// Prints the row of a trace's last steps, where there are any, and the end.
fn put_last<O: Sink>(steps: u64, halted: bool, out: &mut O) -> Result<(), SinkFault>
    ensures { Prints O.Sink out.old out.new (steps_text steps ++ end_row halted) result }
{
    put(steps_row(steps).as_str().as_bytes(), out)?;
    put_end(halted, out)
}

// Prints what ends a trace of a run that halted, or goes on: the row of the last steps, the end, and the rows of the traced user.
//
// # Errors
//
// A fault of the disk or of the sink.
pub(crate) fn put_trace_closing<D: Sectors, O: Sink>(
    machine: &Machine,
    map: &Map,
    tracer: Tracer,
    standing: Standing,
    disk: &mut D,
    out: &mut O,
) -> Result<(), ReportFault>
    requires { CanReadUser map.now tracer.user (length machine.now.hardware.memory) (D.size disk.old) }
    ensures { Makes O.Sink D.Sectors (out.old, disk.old) (out.new, disk.new)
        (trace_calls standing.halted standing.current machine.now (D.sectors disk.old) map.now tracer) of_report result }
{
    put_last(tracer.steps, standing.halted, out)?;
    let running = runs_now(standing);
    put_user_rows(machine, map, running, tracer.user, disk, out)
}

// What a report answers, as a run answers it.
pub(crate) fn as_run(answer: Result<(), ReportFault>) -> Result<(), RunFault>
    ensures blame { blame of_report answer ≡ blame of_run result }
    ensures limit { result ≢ Err RunFault.StepLimit }
{
    match answer {
        Ok(()) => Ok(()),
        Err(ReportFault::Disk) => Err(RunFault::Disk),
        Err(ReportFault::Sink) => Err(RunFault::Sink),
    }
}
