// Schedules, one a line: what each is read as. In a line `\n`, `\r` and `\\` stand for LF, CR and a backslash, and `TEXT|COUNT|` for TEXT so many
// times.

use cvm_text::{decimal_u64, read_decimal};
use schedule_file::{Schedule, ScheduleFault, read};
use std::alloc::{AllocError, Global};
use std::fmt::Write;

/// The greatest number of input words that are shown one by one.
const FEW: usize = 8;

// Appends a text whose escapes stand for other bytes.
fn append(text: &mut Vec<u8>, escaped: &[u8]) -> Result<(), AllocError> {
    let mut is_escape = false;
    for c in escaped {
        let byte = match *c {
            b'n' if is_escape => b'\n',
            b'r' if is_escape => b'\r',
            c => c,
        };
        is_escape = *c == b'\\' && !is_escape;
        if !is_escape {
            text.push(byte)?;
        }
    }
    Ok(())
}

// Appends such a text so many times.
fn append_times(text: &mut Vec<u8>, escaped: &[u8], count: u64) -> Result<(), AllocError> {
    for _ in 0..count {
        append(text, escaped)?;
    }
    Ok(())
}

// The text that a line of the input writes.
fn text_of(alloc: Global, line: &[u8]) -> Result<Vec<u8>, AllocError> {
    let mut text = Vec::new(alloc);
    let mut last: &[u8] = &[];
    for (index, field) in line.split(|c| *c == b'|').enumerate() {
        if index % 2 == 0 {
            append(&mut text, field)?;
            last = field;
        } else {
            let count = read_decimal(field, 0).map_or(1, |read| read.0);
            append_times(&mut text, last, count.saturating_sub(1))?;
        }
    }
    Ok(text)
}

// Appends a word and a number.
fn show(shown: &mut String, word: &str, number: u64) -> Result<(), AllocError> {
    shown.push_str(word)?;
    shown.push_str(decimal_u64(number).as_str())
}

// Shows the lines that are raised at a step, if there are any.
fn show_lines(shown: &mut String, schedule: &Schedule, step: u64) -> Result<(), AllocError> {
    let lines = schedule.lines_at(step).0;
    if lines != 0 {
        show(shown, " line ", step)?;
        show(shown, " ", u64::from(lines))?;
    }
    Ok(())
}

// Shows the busy time of a command, if it has one.
fn show_busy(shown: &mut String, schedule: &Schedule, command: u64) -> Result<(), AllocError> {
    let steps = schedule.busy_of(command);
    if steps != 0 {
        show(shown, " busy ", command)?;
        show(shown, " ", steps)?;
    }
    Ok(())
}

// Shows what the first steps, the last step and the first commands have, and
// the first words of the input.
fn show_schedule(shown: &mut String, schedule: &Schedule) -> Result<(), AllocError> {
    for step in 0..9 {
        show_lines(shown, schedule, step)?;
    }
    let last = schedule.last_step();
    if last >= 9 {
        show_lines(shown, schedule, last)?;
    }
    for command in 0..9 {
        show_busy(shown, schedule, command)?;
    }
    for word in schedule.inputs().iter().take(FEW) {
        show(shown, " input ", u64::from(*word))?;
    }
    show(shown, " last ", last)?;
    show(shown, " longest ", schedule.longest())?;
    show(shown, " inputs ", schedule.inputs().len() as u64)
}

// Shows why a text is no schedule: the refusal's number and its fields.
fn show_fault(shown: &mut String, fault: ScheduleFault) -> Result<(), AllocError> {
    show(shown, " refused ", u64::from(fault.number()))?;
    if let Some(line) = fault.line() {
        show(shown, " ", line)?;
    }
    if let Some(value) = fault.value() {
        show(shown, " ", value)?;
    }
    Ok(())
}

// What a text is read as.
fn reading(alloc: Global, text: &[u8]) -> Result<String, AllocError> {
    let mut shown = String::new(alloc);
    match read(alloc, text) {
        Ok(schedule) => show_schedule(&mut shown, &schedule)?,
        Err(fault) => show_fault(&mut shown, fault)?,
    }
    Ok(shown)
}

// What is printed of the lines of a text.
pub(crate) fn put_schedules(
    alloc: Global,
    out: &mut String,
    lines: &str,
) -> Result<(), AllocError> {
    for line in lines.lines() {
        let text = text_of(alloc, line.as_bytes())?;
        let shown = reading(alloc, text.as_slice())?;
        writeln!(out, "{line}\n {shown}")?;
    }
    Ok(())
}
