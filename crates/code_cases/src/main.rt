// Compiles kernels and runs them on the physical machine, as files of cases say, and prints what they come to. `case_file` says how a case
// is written. A case
//
//     == run HEAP STACK CAUSE/DATA/USER .. NAME
//
// gives the words of the heap and of the stack, and the arguments of each dispatch; its source is the kernel. What is printed of each
// dispatch: its calls of primitives with their arguments, how it ends, and the globals; and at last the heap as far as it is used. A pointer is printed as
// `g` or `h` and the number of its word among the globals or in the heap; of more than 64 words those other than 0 are printed with their
// numbers. Stand-ins are called in place of the layer's primitives: a bool says whether the first argument is above 0, and an int is the
// sum of the first two arguments and 100 times the primitive's number. They change every register that a primitive may change.
//
// A case `== code NAME` prints the words of its kernel.
#![tactic(auto)]

mod desk;
mod kernel;
mod stubs;

use crate::kernel::{put_code, put_run};
use case_file::{Case, cases};
use std::alloc::{AllocError, Global};
use std::fmt::Write;
use std::{env, fs, io};

// A case, and what is answered.
fn put_case(alloc: Global, out: &mut String, case: &Case) -> Result<(), AllocError> {
    let kind = case.kind.as_str();
    let name = case.name.as_str();
    writeln!(out, "== {kind} {name}")?;
    match kind {
        "run" => put_run(alloc, out, name, &case.source),
        "code" => put_code(alloc, out, &case.source),
        _ => out.push_str("no such kind\n"),
    }
}

// The words are the names of files, whose cases are tried.
fn main(rt: HostRuntime) -> io::Result<()> {
    let alloc = rt.alloc();
    let mut out = String::new(alloc);
    for file in env::args(&rt)?.skip(1) {
        let text = fs::read_to_string(&rt, file.as_str())?;
        for case in &cases(alloc, text.as_str())? {
            put_case(alloc, &mut out, case)?;
        }
    }
    rt.print(out)
}
