// Faults as a line: the number of a refusal, and where it stands.

use c0_parser::ReadFault;
use c0_types::{SourceFault, TypeFault};
use std::alloc::AllocError;
use std::fmt::Write;

/// Why a source has no tree, as `12 at 6`.
pub fn put_read_fault(out: &mut String, fault: ReadFault) -> Result<(), AllocError> {
    write!(out, "{}", fault.number())?;
    if let Some(at) = fault.at() {
        write!(out, " at {at}")?;
    }
    out.push('\n')
}

/// Why a tree is not typed, as `20 at 21-22`, or `32 at 21-40, line 2` of a line of an asm text.
pub fn put_type_fault(out: &mut String, fault: TypeFault) -> Result<(), AllocError> {
    write!(out, "{}", fault.number())?;
    if let Some(span) = fault.span() {
        let start = span.start;
        let end = span.end;
        write!(out, " at {start}-{end}")?;
    }
    if let Some(line) = fault.line() {
        write!(out, ", line {line}")?;
    }
    out.push('\n')
}

/// Why a source has no checked unit.
pub fn put_source_fault(out: &mut String, fault: SourceFault) -> Result<(), AllocError> {
    match fault {
        SourceFault::Reading(fault) => put_read_fault(out, fault),
        SourceFault::Typing(fault) => put_type_fault(out, fault),
    }
}
