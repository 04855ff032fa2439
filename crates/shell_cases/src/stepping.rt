// The turns of a loaded run, one by one.
ghost use Rattle.std.specs.Prelude.{◌≡◌};

use boot_run::{Run, RunFault, Turn};
use cvm_outside::{Sectors, Sink};
use layer_contract::Layer;
use std::alloc::AllocError;
use std::fmt::Write;

// Prints an answer, and how often it came in succession.
fn put_answer(
    out: &mut String,
    answer: Result<Turn, RunFault>,
    count: u32,
) -> Result<(), AllocError> {
    if count > 0 {
        writeln!(out, "{count} x {answer:?}")?;
    }
    Ok(())
}

/// Asks a loaded run so often for its next turn, over so many steps, and prints the answers; then how it ended, its steps, and those
/// that are left.
pub fn put_turns<L: Layer + Drop, D: Sectors, O: Sink>(
    run: &mut Run<L>,
    calls: u32,
    steps: u64,
    disk: &mut D,
    sink: &mut O,
    out: &mut String,
) -> Result<(), AllocError>
    requires disk { D.size disk.old ≡ run.old.count }
    requires start { run.old.machine.time ≡ 0 }
{
    let mut budget = steps;
    let mut answer = Ok(Turn::Over);
    let mut count: u32 = 0;
    for _ in 0..calls {
        let next = run.turn(&mut budget, disk, sink);
        if next != answer {
            put_answer(out, answer, count)?;
            count = 0;
        }
        answer = next;
        count = count.saturating_add(1);
    }
    put_answer(out, answer, count)?;
    writeln!(
        out,
        "ended {:?}, steps {}, left {budget}",
        run.ended(),
        run.steps()
    )
}
