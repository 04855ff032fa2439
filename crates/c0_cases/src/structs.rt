// The sizes of the structs of a source, also of one that is not typed.

ghost use Rattle.std.specs.Prelude.{◌<◌, ◌^◌, length};

use crate::faults::put_read_fault;
use crate::tree_text::put_bytes;
use c0_parser::parse;
use c0_struct_sizes::{struct_numbers, struct_sizes};
use c0_tree::StructDef;
use std::alloc::{AllocError, Global};
use std::fmt::Write;

// The words of each struct, and whether it holds itself.
fn put_sizes(alloc: Global, out: &mut String, structs: &[StructDef]) -> Result<(), AllocError>
    requires { length structs.now < 2 ^ 32 }
{
    let names = struct_numbers(alloc, structs)?;
    let sizes = struct_sizes(alloc, &names, structs)?;
    for (def, (words, holds_itself)) in structs
        .iter()
        .zip(sizes.words.iter().zip(&sizes.holds_itself))
    {
        put_bytes(out, &def.name.bytes)?;
        let is_held = if *holds_itself { ", holds itself" } else { "" };
        writeln!(out, " {words}{is_held}")?;
    }
    Ok(())
}

/// The sizes of the structs of a source, or its fault.
pub fn put_structs(alloc: Global, out: &mut String, source: &[u8]) -> Result<(), AllocError> {
    match parse(alloc, source) {
        Ok(unit) if unit.structs.len() < 1000000 => put_sizes(alloc, out, &unit.structs),
        Ok(_) => out.push_str("too many\n"),
        Err(fault) => put_read_fault(out, fault),
    }
}
