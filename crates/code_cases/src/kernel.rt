// A kernel that is compiled, and what its dispatches come to.

use crate::desk::Desk;
use c0_meaning::{Checked, Measured};
use c0_tree::CType;
use c0_types::read_unit;
use c0_unit::compile;
use cvm_text::hex8;
use layer_map::{Map, Params};
use schedule_file::read;
use std::alloc::{AllocError, Global};

// The words of a type.
fn type_words(ty: &CType, sizes: &Measured<'_>) -> u64 {
    match ty {
        CType::Int => 1,
        CType::Bool => 1,
        CType::Pointer(_) => 1,
        CType::Named(name) => {
            if (name.number as usize) < sizes.unit().structs.len() {
                u64::from(sizes.struct_words(name.number))
            } else {
                0
            }
        }
        CType::Array(element, length) => {
            type_words(element, sizes).saturating_mul(u64::from(*length))
        }
    }
}

// The words of the globals.
fn global_words(unit: &Checked) -> u64 {
    let sizes = unit.measured();
    let mut words = 0u64;
    for decl in &unit.unit().globals {
        words = words.saturating_add(type_words(&decl.ty, &sizes));
    }
    words
}

// A decimal number.
fn number(text: &str) -> u32 {
    text.parse::<u32>().unwrap_or(0)
}

// A decimal number with a sign.
fn word(text: &str) -> u32 {
    match text.strip_prefix('-') {
        Some(distance) => 0u32.wrapping_sub(number(distance)),
        None => number(text),
    }
}

// The three arguments that a field gives, if it gives three.
fn arguments(field: &str) -> Option<(u32, u32, u32)> {
    let (cause, rest) = field.split_once('/')?;
    let (data, user) = rest.split_once('/')?;
    Some((word(cause), word(data), word(user)))
}

// The machine for a kernel with a heap and a stack of so many words, if it isn't too large.
fn desk(alloc: Global, unit: &Checked, heap: u32, stack: u32) -> Result<Option<Desk>, AllocError> {
    let code = compile(alloc, unit)?;
    let globals = global_words(unit);
    if code.len() > 100_000 || globals > 100_000 || heap > 50_000 || stack < 64 || stack > 50_000 {
        return Ok(None);
    }
    let params = Params {
        pages: 1,
        frames: 2,
        heap,
        stack,
    };
    let map = Map::of(&params, 0, code.len() as u32, globals as u32);
    let Ok(schedule) = read(alloc, b"") else {
        return Ok(None);
    };
    Ok(Some(Desk::new(alloc, &map, &code, globals as u32, schedule)?))
}

/// Runs the dispatches that a case's name gives, and tells what they come to.
pub fn put_run(
    alloc: Global,
    out: &mut String,
    name: &str,
    source: &[u8],
) -> Result<(), AllocError> {
    let Ok(unit) = read_unit(alloc, source) else {
        return out.push_str("refused\n");
    };
    let heap = number(name.split(' ').next().unwrap_or(""));
    let stack = number(name.split(' ').nth(1).unwrap_or(""));
    let Some(mut desk) = desk(alloc, &unit, heap, stack)? else {
        return out.push_str("too large\n");
    };
    for field in name.split(' ') {
        if let Some((cause, data, user)) = arguments(field) {
            desk.ask(cause, data, user);
            let left = desk.dispatch(out)?;
            desk.put_globals(out)?;
            if !left {
                break;
            }
        }
    }
    desk.put_heap(out)
}

/// The words of a kernel, a line each, with their addresses.
pub fn put_code(alloc: Global, out: &mut String, source: &[u8]) -> Result<(), AllocError> {
    let Ok(unit) = read_unit(alloc, source) else {
        return out.push_str("refused\n");
    };
    let code = compile(alloc, &unit)?;
    let mut address = 0x10000u32;
    for word in &code {
        out.push_str(hex8(address).as_str())?;
        out.push(' ')?;
        out.push_str(hex8(*word).as_str())?;
        out.push('\n')?;
        address = address.wrapping_add(4);
    }
    Ok(())
}
