// Links kernels with the layer, loads them with their users, runs them on the physical machine, and prints what each system shows. The words
// are the names of files of cases; `case_file` says how a case is written. A case
//
//     == system PAGES FRAMES HEAP STACK TURNS NAME
//
// gives the most pages of a user, the user frames, the words of the heap and of the stack, and the turns that are run. Its source has parts: a
// line `%% schedule`, and a schedule; for each user a line `%% user`, and its assembler text; a line `%% kernel`, and a kernel in C0.
//
// It prints for each call of `dispatch` its turn, arguments and answer; then the power word with which the machine is off, or `stopped`; the
// globals and the used heap, where a pointer is `g` or `h` and the number of its word; each user's size, pc, hi, lo, registers other than 0
// and a sum of its words; the console's log; for each line of the schedule the turn that it belongs to; and the complete turns with the most
// steps from an interrupt to `dispatch`, from its answer on, of a handled page fault and of a primitive.
#![tactic(auto)]

mod desk;
mod plan;
mod report;
mod system;
mod watch;

use crate::plan::plan_of;
use crate::report::put_steps;
use crate::system::load;
use crate::watch::Watch;
use case_file::{Case, cases};
use std::alloc::{AllocError, Global};
use std::fmt::Write;
use std::{env, fs, io};

// A case, and what its system shows.
fn put_case(alloc: Global, out: &mut String, case: &Case) -> Result<(), AllocError> {
    let kind = case.kind.as_str();
    let name = case.name.as_str();
    writeln!(out, "== {kind} {name}")?;
    let plan = plan_of(alloc, case)?;
    let Some(mut system) = load(alloc, &plan)? else {
        return out.push_str("refused\n");
    };
    let mut watch = Watch::new(Vec::new(alloc));
    watch.run(&mut system.desk, system.map.users(), plan.turns, out)?;
    system.put_report(out)?;
    put_steps(out, &plan.schedule, &watch)
}

fn main(rt: HostRuntime) -> io::Result<()> {
    let alloc = rt.alloc();
    let mut out = String::new(alloc);
    for file in env::args(&rt)?.skip(1) {
        let text = fs::read_to_string(&rt, file.as_str())?;
        for case in &cases(alloc, text.as_str())? {
            put_case(alloc, &mut out, case)?;
        }
    }
    rt.print(out)
}
