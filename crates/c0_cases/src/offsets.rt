// Where globals, the variables of functions and the fields of structs begin.

use crate::faults::put_source_fault;
use crate::tree_text::put_bytes;
use c0_meaning::{Checked, Measured, field_offsets, global_offsets, variable_offsets};
use c0_tree::{Body, Decl, Function, Unit};
use c0_types::read_unit;
use std::alloc::{AllocError, Global};
use std::fmt::Write;

// The names of declarations, each with where it begins.
fn put_decls(out: &mut String, decls: &[Decl], offsets: &[u64]) -> Result<(), AllocError> {
    for (decl, offset) in decls.iter().zip(offsets) {
        out.push(' ')?;
        put_bytes(out, &decl.name.bytes)?;
        write!(out, " {offset}")?;
    }
    Ok(())
}

// A line for a function: its parameters, and behind a comma its locals.
fn put_variables(out: &mut String, function: &Function, offsets: &[u64]) -> Result<(), AllocError> {
    put_bytes(out, &function.name.bytes)?;
    put_decls(out, &function.params, offsets)?;
    if let Body::Code(code) = &function.body {
        let behind = offsets.get(function.params.len()..).unwrap_or(&[]);
        out.push(',')?;
        put_decls(out, &code.locals, behind)?;
    }
    out.push('\n')
}

// A line for each struct: its fields.
fn put_fields(
    alloc: Global,
    out: &mut String,
    unit: &Unit,
    sizes: &Measured<'_>,
) -> Result<(), AllocError> {
    for (def, offsets) in unit.structs.iter().zip(&field_offsets(alloc, sizes)?) {
        out.push_str("struct ")?;
        put_bytes(out, &def.name.bytes)?;
        put_decls(out, &def.fields, offsets)?;
        out.push('\n')?;
    }
    Ok(())
}

// The offsets of a checked unit: of its globals, of each function's variables and of each struct's fields.
fn put_all(alloc: Global, out: &mut String, checked: &Checked) -> Result<(), AllocError> {
    let unit = checked.unit();
    let sizes = checked.measured();
    out.push_str("globals")?;
    put_decls(out, &unit.globals, &global_offsets(alloc, &sizes)?)?;
    out.push('\n')?;
    for number in 0..unit.functions.len() as u32 {
        let offsets = variable_offsets(alloc, &sizes, number)?;
        put_variables(out, &unit.functions[number as usize], &offsets)?;
    }
    put_fields(alloc, out, unit, &sizes)
}

/// Where the variables of a source begin, or its fault.
pub fn put_offsets(alloc: Global, out: &mut String, source: &[u8]) -> Result<(), AllocError> {
    match read_unit(alloc, source) {
        Ok(checked) => put_all(alloc, out, &checked),
        Err(fault) => put_source_fault(out, fault),
    }
}
