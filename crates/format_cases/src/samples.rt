// Samples: the parts of one; and whether its source is typed and its schedule is one.

use c0_types::read_unit;
use cvm_text::hex8;
use sample_maker::{Sample, sample};
use std::alloc::{AllocError, Global};
use std::fmt::Write;

// The words of each user.
fn put_users(out: &mut String, users: &[Vec<u32>]) -> Result<(), AllocError> {
    writeln!(out, "users, {}", users.len())?;
    for (index, words) in users.iter().enumerate() {
        let number = index as u64 + 1;
        write!(out, "user {number}, {} words:", words.len())?;
        for word in words {
            out.push(' ')?;
            out.push_str(hex8(*word).as_str())?;
        }
        out.push('\n')?;
    }
    Ok(())
}

// A text, and its length.
fn put_text(out: &mut String, name: &str, text: &[u8]) -> Result<(), AllocError> {
    writeln!(out, "{name}, {} bytes", text.len())?;
    for byte in text {
        out.push(char::from(*byte))?;
    }
    Ok(())
}

// The parts of a sample.
fn put_parts(out: &mut String, sample: &Sample) -> Result<(), AllocError> {
    let params = &sample.params;
    writeln!(
        out,
        "pages {} frames {} heap {} stack {}",
        params.pages, params.frames, params.heap, params.stack
    )?;
    put_users(out, &sample.users)?;
    put_text(out, "source", &sample.source)?;
    put_text(out, "schedule", &sample.schedule)
}

// Whether the source is typed.
fn put_typing(alloc: Global, out: &mut String, source: &[u8]) -> Result<(), AllocError> {
    match read_unit(alloc, source) {
        Ok(_) => out.push_str(", source typed"),
        Err(fault) => write!(out, ", {fault}"),
    }
}

// What the schedule says.
fn put_schedule(alloc: Global, out: &mut String, text: &[u8]) -> Result<(), AllocError> {
    match schedule_file::read(alloc, text) {
        Ok(schedule) => {
            let last = schedule.last_step();
            let longest = schedule.longest();
            write!(out, ", schedule read to step {last}, longest {longest}")
        }
        Err(fault) => write!(out, ", {fault}"),
    }
}

// What is printed of the sample of a number.
pub(crate) fn put_sample(alloc: Global, out: &mut String, number: u32) -> Result<(), AllocError> {
    let parts = sample(alloc, number)?;
    put_parts(out, &parts)
}

// How many users the sample of a number has, and whether its source is typed and its schedule is one.
pub(crate) fn put_checked(alloc: Global, out: &mut String, number: u32) -> Result<(), AllocError> {
    let parts = sample(alloc, number)?;
    write!(out, "{} users", parts.users.len())?;
    put_typing(alloc, out, &parts.source)?;
    put_schedule(alloc, out, &parts.schedule)?;
    out.push('\n')
}
