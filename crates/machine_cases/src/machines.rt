// Machines: they run as the lines of a text say, and each line is printed, and what it has to tell:
//
//     machine FAILS SCHEDULE  a new machine of 4 frames with this schedule, and
//                             a disk of 8 sectors, each word of sector 7 being 99;
//                             the disk's calls with the numbers FAILS (digits) fail
//     again FAILS SCHEDULE    the same, with the memory of the last machine
//     at ADDRESS              the next word goes to this address
//     WORD ..                 a word of memory, 8 hexadecimal digits
//     run STEPS               so many steps; tells interrupts, power and faults
//     state                   pc, and what of registers, hi, lo, the special
//                             registers and the log isn't 0
//     words ADDRESS COUNT     words of memory
//     sector NUMBER COUNT     words of a sector
//     log COUNT               the log's first words
//     row WORD A B            the instruction WORD, at 00000010 on a new machine,
//                             with A in r1 and hi, and B in r2 and lo
//
// Other lines are only printed. Numbers of steps, sectors and words are decimal.
// In a schedule `;` stands for LF, and `TEXT|COUNT|` for TEXT so many times.

use crate::field::{field, hex, number, schedule_text};
use crate::machine_desk::Desk;
use std::alloc::{AllocError, Global};
use std::fmt::Write;

// A new machine with this instruction after four that set r1, r2, hi and lo.
fn row_desk(alloc: Global, word: u32, a: u32, b: u32) -> Option<Desk> {
    let mut desk = Desk::new(alloc, b"", b"-")?;
    for value in [0x8c01_0100, 0x8c02_0104, 0x0020_0011, 0x0040_0013, word] {
        desk.put(value);
    }
    desk.place(0x100);
    desk.put(a);
    desk.put(b);
    Some(desk)
}

// The machine that a line begins: that of `machine`, `again` or `row`.
fn begun(alloc: Global, last: &Desk, line: &[u8]) -> Option<Desk> {
    if field(line, 0) == b"row".as_slice() {
        return row_desk(
            alloc,
            hex(field(line, 1)),
            hex(field(line, 2)),
            hex(field(line, 3)),
        );
    }
    let is_again = field(line, 0) == b"again".as_slice();
    if !is_again && field(line, 0) != b"machine".as_slice() {
        return None;
    }
    let text = schedule_text(alloc, line).ok()?;
    let mut desk = Desk::new(alloc, text.as_slice(), field(line, 1))?;
    if is_again {
        desk.copy_memory(last);
    }
    Some(desk)
}

// Does what a line says, and appends what it has to tell.
fn obey(desk: &mut Desk, line: &[u8], told: &mut String) -> Result<(), AllocError> {
    let kind = field(line, 0);
    if kind == b"at".as_slice() {
        desk.place(hex(field(line, 1)));
    } else if kind == b"run".as_slice() {
        desk.run(number(field(line, 1)), told)?;
    } else if kind == b"row".as_slice() {
        desk.run(6, told)?;
        desk.tell_state(told)?;
    } else if kind == b"state".as_slice() {
        desk.tell_state(told)?;
    } else if kind == b"words".as_slice() {
        desk.tell_words(hex(field(line, 1)), number(field(line, 2)), told)?;
    } else if kind == b"sector".as_slice() {
        desk.tell_sector(number(field(line, 1)), number(field(line, 2)), told)?;
    } else if kind == b"log".as_slice() {
        desk.tell_log(number(field(line, 1)), told)?;
    } else if kind.len() == 8 {
        desk.put(hex(kind));
    }
    Ok(())
}

// What is printed of the lines of a text.
pub(crate) fn put_lines(alloc: Global, out: &mut String, text: &str) -> Result<(), AllocError> {
    let Some(mut desk) = Desk::new(alloc, b"", b"-") else {
        return out.push_str("no machine\n");
    };
    for line in text.lines() {
        if let Some(new) = begun(alloc, &desk, line.as_bytes()) {
            desk = new;
        }
        let mut told = String::new(alloc);
        obey(&mut desk, line.as_bytes(), &mut told)?;
        writeln!(out, "{line}")?;
        if !told.is_empty() {
            writeln!(out, "{told}")?;
        }
    }
    Ok(())
}
