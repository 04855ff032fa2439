// Prints the maps of systems and what a kernel's routines answer, and runs machines and what runs on them. The words are the names of files of
// lines, of which each says what is done (machines.rt, blocks.rt, faults.rt).
#![tactic(auto)]

mod block_desk;
mod blocks;
mod driver;
mod fault_desk;
mod faults;
mod field;
mod machine_desk;
mod machines;
mod maps;
mod routines;
mod telling;

use std::alloc::{AllocError, Global};
use std::{env, fs, io};

// What is printed of a file of this name.
fn put_file(alloc: Global, out: &mut String, name: &str, text: &str) -> Result<(), AllocError> {
    match name {
        "machines" => machines::put_lines(alloc, out, text),
        "blocks" => blocks::put_lines(alloc, out, text),
        "faults" => faults::put_lines(alloc, out, text),
        _ => out.push_str("no such file\n"),
    }
}

fn main(rt: HostRuntime) -> io::Result<()> {
    let alloc = rt.alloc();
    let mut out = String::new(alloc);
    maps::put_maps(&mut out)?;
    routines::put_routines(alloc, &mut out)?;
    for file in env::args(&rt)?.skip(1) {
        let text = fs::read_to_string(&rt, file.as_str())?;
        put_file(alloc, &mut out, file.as_str(), text.as_str())?;
    }
    rt.print(out)
}
