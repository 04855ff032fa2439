// Object files: the source and the words of each, and whether writing it gives the same bytes again.

use object_file::{MOST_SOURCE, MOST_WORDS, Object, ObjectFault, read, write};
use std::alloc::{AllocError, Global};
use std::fmt::Write;

// Bytes: those of printed ASCII as they are, and `\xHH` for each other one.
fn put_bytes(out: &mut String, bytes: &[u8]) -> Result<(), AllocError> {
    for byte in bytes {
        if *byte >= b' ' && *byte <= b'~' && *byte != b'\\' {
            out.push(char::from(*byte))?;
        } else {
            write!(out, "\\x{byte:02x}")?;
        }
    }
    Ok(())
}

// The source and the words of an object: their numbers, and the first of them.
fn put_object(out: &mut String, object: &Object) -> Result<(), AllocError> {
    write!(out, "source, {} bytes: ", object.source.len())?;
    for part in object.source.chunks(32).take(1) {
        put_bytes(out, part)?;
    }
    write!(out, "\nwords, {}:", object.words.len())?;
    for word in object.words.iter().take(8) {
        write!(out, " {word:08x}")?;
    }
    out.push('\n')
}

// Whether an object is written as these bytes.
fn put_written(
    alloc: Global,
    out: &mut String,
    object: &Object,
    bytes: &[u8],
) -> Result<(), AllocError> {
    if object.source.len() > MOST_SOURCE as usize || object.words.len() > MOST_WORDS as usize {
        return out.push_str("too long to be written\n");
    }
    let written = write(alloc, object)?;
    let is_same = written.as_slice() == bytes;
    out.push_str(if is_same {
        "written as it was\n"
    } else {
        "written otherwise\n"
    })
}

// Why bytes are no object.
fn put_fault(out: &mut String, fault: ObjectFault) -> Result<(), AllocError> {
    write!(out, "{}", fault.number())?;
    if let Some(at) = fault.at() {
        write!(out, " at {at}")?;
    }
    if let Some(value) = fault.value() {
        write!(out, ", value {value}")?;
    }
    out.push('\n')
}

// What is printed of bytes that are read as an object.
pub(crate) fn put_object_file(
    alloc: Global,
    out: &mut String,
    bytes: &[u8],
) -> Result<(), AllocError> {
    match read(alloc, bytes) {
        Ok(object) => {
            put_object(out, &object)?;
            put_written(alloc, out, &object, bytes)
        }
        Err(fault) => put_fault(out, fault),
    }
}
