// What the front answers to a source, the parts of a tree, and what asm texts say.

use crate::faults::{put_read_fault, put_source_fault};
use crate::tree_spans::unit_spans;
use crate::tree_text::{put_bytes, put_unit, put_words};
use c0_asm_text::read_asm;
use c0_meaning::{Checked, frame_words};
use c0_parser::parse;
use c0_tree::Unit;
use c0_types::{read_program, read_unit};
use std::alloc::{AllocError, Global};
use std::fmt::Write;

/// The tree of a source, or its fault.
pub fn put_tree(alloc: Global, out: &mut String, source: &[u8]) -> Result<(), AllocError> {
    match parse(alloc, source) {
        Ok(unit) => put_unit(out, &unit),
        Err(fault) => put_read_fault(out, fault),
    }
}

/// Where each part of a tree stands and the text that stands there, each part before the parts in it.
pub fn put_spans(
    alloc: Global,
    out: &mut String,
    source: &[u8],
    unit: &Unit,
) -> Result<(), AllocError> {
    for span in &unit_spans(alloc, unit)? {
        let start = span.start;
        let end = span.end;
        write!(out, "{start}-{end} ")?;
        put_bytes(
            out,
            source.get(start as usize..end as usize).unwrap_or(b"?"),
        )?;
        out.push('\n')?;
    }
    Ok(())
}

/// The parts of the tree of a source, or its fault.
pub fn put_parts(alloc: Global, out: &mut String, source: &[u8]) -> Result<(), AllocError> {
    match parse(alloc, source) {
        Ok(unit) => put_spans(alloc, out, source, &unit),
        Err(fault) => put_read_fault(out, fault),
    }
}

/// Whether a source has a checked unit, or its fault.
pub fn put_check(alloc: Global, out: &mut String, source: &[u8]) -> Result<(), AllocError> {
    match read_unit(alloc, source) {
        Ok(_) => out.push_str("typed\n"),
        Err(fault) => put_source_fault(out, fault),
    }
}

/// The same of a kernel: the source with a `dispatch` behind it.
pub fn put_kernel(alloc: Global, out: &mut String, items: &[u8]) -> Result<(), AllocError> {
    let mut source = Vec::from_slice(alloc, items)?;
    source.extend_from_slice(b" int dispatch(int a, int b, int c) { return 0; }")?;
    put_check(alloc, out, &source)
}

/// Whether a source has a checked unit as a user program, or its fault.
pub fn put_user(alloc: Global, out: &mut String, source: &[u8]) -> Result<(), AllocError> {
    match read_program(alloc, source) {
        Ok(_) => out.push_str("typed\n"),
        Err(fault) => put_source_fault(out, fault),
    }
}

/// The same of the source with a `main` behind it.
pub fn put_users(alloc: Global, out: &mut String, items: &[u8]) -> Result<(), AllocError> {
    let mut source = Vec::from_slice(alloc, items)?;
    source.extend_from_slice(b" int main() { return 0; }")?;
    put_user(alloc, out, &source)
}

/// The checked unit of a user program's source, its names with what they stand for, or its fault.
pub fn put_user_names(alloc: Global, out: &mut String, source: &[u8]) -> Result<(), AllocError> {
    match read_program(alloc, source) {
        Ok(checked) => put_unit(out, checked.unit()),
        Err(fault) => put_source_fault(out, fault),
    }
}

/// The checked unit of a source, its names with what they stand for, or its fault.
pub fn put_names(alloc: Global, out: &mut String, source: &[u8]) -> Result<(), AllocError> {
    match read_unit(alloc, source) {
        Ok(checked) => put_unit(out, checked.unit()),
        Err(fault) => put_source_fault(out, fault),
    }
}

// The words of the frame of each function.
fn put_frames(alloc: Global, out: &mut String, checked: &Checked) -> Result<(), AllocError> {
    let unit = checked.unit();
    let sizes = checked.measured();
    for number in 0..unit.functions.len() as u32 {
        put_bytes(out, &unit.functions[number as usize].name.bytes)?;
        writeln!(out, " {}", frame_words(&sizes, number))?;
    }
    Ok(())
}

/// The words of the frames of a source, or its fault.
pub fn put_sizes(alloc: Global, out: &mut String, source: &[u8]) -> Result<(), AllocError> {
    match read_unit(alloc, source) {
        Ok(checked) => put_frames(alloc, out, &checked),
        Err(fault) => put_source_fault(out, fault),
    }
}

/// The words of an asm text, and its first line that is not allowed.
pub fn put_asm(alloc: Global, out: &mut String, text: &[u8]) -> Result<(), AllocError> {
    let reading = read_asm(alloc, text)?;
    out.push_str("words")?;
    put_words(out, &reading.words)?;
    if let Some(line) = reading.bad_line {
        write!(out, ", line {line} is not allowed")?;
    }
    out.push('\n')
}
