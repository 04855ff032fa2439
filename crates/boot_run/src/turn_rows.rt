// What a call of `turn` prints beside the rows of a journal: the first row of a trace, a dispatch's row, and the kernel's fault.
ghost use Rattle.std.specs.Prelude.{◌≡◌, ◌∷◌, ◌++◌, [], true, OnErr};
ghost use Rattle.cvm_outside.specs.Script.{Prints};
ghost use Rattle.cvm_model.specs.Primitives.{pages_of};
ghost use Rattle.cvm_model.specs.Text.{rows_text, start_row as start_text, steps_row as steps_text};
ghost use Rattle.cvm_model.specs.declared.row.Row.{Row as OneRow};
ghost use Rattle.boot_run.specs.Shown.{has_faulted};
ghost use Rattle.boot_run.specs.TurnCalls.{rows_of_turn};
ghost use Rattle.boot_run.specs.TurnParts.{first_machine, fault_rows, HasUser};
ghost use Rattle.boot_report.specs.Texts.{fault_row};

use boot_report::journal_text::{start_row, steps_row};
use boot_report::row_text::{fault_row, row_text};
use boot_turns::Turn;
use cvm_model::{KernelFault, Next};
use cvm_outside::single_calls::put;
use cvm_outside::{Sink, SinkFault};
use layer_contract::Boot;

// The number of pages of a user's machine at the start: those that its words reach into.
fn first_pages(boot: &Boot, user: u32) -> u32
    requires { HasUser boot.now user }
    ensures { pages_of (first_machine boot.now user) ≡ result }
{
    let words = boot.users[user as usize - 1].as_slice();
    words.len().div_ceil(1024).min(1024) as u32
}

// Prints the first row of a trace.
//
// # Errors
//
// A fault of the sink.
pub(crate) fn put_start<O: Sink>(boot: &Boot, user: u32, out: &mut O) -> Result<(), SinkFault>
    requires { HasUser boot.now user }
    ensures { Prints O.Sink out.old out.new (start_text user (first_machine boot.now user)) result }
{
    let pages = first_pages(boot, user);
    put(start_row(user, pages).as_str().as_bytes(), out)
}

// Prints the row of a dispatch.
//
// # Errors
//
// A fault of the sink.
pub(crate) fn put_row<O: Sink>(answer: Turn, out: &mut O) -> Result<(), SinkFault>
    ensures put { Prints O.Sink out.old out.new (rows_text (rows_of_turn answer)) result }
    ensures dispatch { OnErr result ((row : OneRow) × (rows_of_turn answer ≡ row ∷ [])) }
{
    match answer {
        Turn::Dispatch(row) => put(row_text(&row).as_str().as_bytes(), out),
        Turn::Step(_) | Turn::Over => Ok(()),
    }
}

// Prints the row of so many steps that have none yet, and that of a kernel's fault.
//
// # Errors
//
// A fault of the sink.
fn put_both<O: Sink>(steps: u64, fault: KernelFault, out: &mut O) -> Result<(), SinkFault>
    ensures { Prints O.Sink out.old out.new (steps_text steps ++ fault_row fault) result }
{
    put(steps_row(steps).as_str().as_bytes(), out)?;
    put(fault_row(fault).as_str().as_bytes(), out)
}

// Prints the last rows of a trace whose kernel faulted, after so many steps that have no row yet. Of any other run it prints nothing.
//
// # Errors
//
// A fault of the sink.
pub(crate) fn put_fault<O: Sink>(
    steps: u64,
    ended: Option<Next>,
    out: &mut O,
) -> Result<(), SinkFault>
    ensures put { Prints O.Sink out.old out.new (fault_rows steps ended) result }
    ensures faulted { OnErr result (has_faulted ended ≡ true) }
{
    match ended {
        Some(Next::Fault(fault)) => put_both(steps, fault, out),
        _ => Ok(()),
    }
}
