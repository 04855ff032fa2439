// The fields of a line.

use cvm_text::read_decimal;
use std::alloc::{AllocError, Global};

/// The field with this number, from 0, of a line that is cut at spaces.
pub fn field(line: &[u8], number: usize) -> &[u8] {
    line.split(|c| *c == b' ').nth(number).unwrap_or(&[])
}

/// The number in hexadecimal digits.
pub fn hex(digits: &[u8]) -> u32 {
    let mut value = 0u32;
    for digit in digits {
        let low = match *digit {
            b'0'..=b'9' => digit % 16,
            c => c % 16 + 9,
        };
        value = value.wrapping_mul(16).wrapping_add(u32::from(low));
    }
    value
}

/// The decimal number in a field: 0 where it is none, and 2^32 - 1 at most.
pub fn number(digits: &[u8]) -> u32 {
    let read = read_decimal(digits, 0).map_or(0, |read| read.0);
    if read < 0x1_0000_0000 {
        read as u32
    } else {
        u32::MAX
    }
}

// Appends a text, of which each `;` is an LF, so many times.
fn append(text: &mut Vec<u8>, escaped: &[u8], count: u32) -> Result<(), AllocError> {
    for _ in 0..count {
        for c in escaped {
            text.push(if *c == b';' { b'\n' } else { *c })?;
        }
    }
    Ok(())
}

/// The schedule that stands behind the second space of a line.
pub fn schedule_text(alloc: Global, line: &[u8]) -> Result<Vec<u8>, AllocError> {
    let mut text = Vec::new(alloc);
    let head = field(line, 0)
        .len()
        .saturating_add(field(line, 1).len())
        .saturating_add(2);
    let rest: &[u8] = if head <= line.len() {
        &line[head..]
    } else {
        &[]
    };
    let mut last: &[u8] = &[];
    for (index, part) in rest.split(|c| *c == b'|').enumerate() {
        if index % 2 == 0 {
            append(&mut text, part, 1)?;
            last = part;
        } else {
            append(&mut text, last, number(part).saturating_sub(1))?;
        }
    }
    Ok(text)
}
