// The page-fault block: it runs on the physical machine as the lines of a text say, and each line is printed, and what it has to tell:
//
//     system USERS PAGES FRAMES SCHEDULE   a new machine, with the map of so many users (1 to 4) of so many pages (1 to 16) and so many
//                          user frames (2 to 40), no heap and 64 words of stack, and this schedule, in which `;` stands for LF, and
//                          `each N` for a line at each of the steps from 0 to N - 1, line T mod 8 at step T
//     entry PAGE WORD      the page's entry becomes this word
//     count FRAME COUNT    the count of the user frame, from 1
//     slot FRAME K PAGE    slot K of the user frame, from 1, holds this page; the slots below the count are the frame's list
//     hand FRAME           the hand becomes this user frame, from 0
//     frame FRAME WORD     word i of the frame becomes WORD + i; frame 0 is the zero frame
//     sector PAGE WORD     word i of the page's sector becomes WORD + i
//     ask PAGE STORE       the page is asked for, to store where STORE isn't 0: tells the steps from the block's first instruction to its end,
//                          and what stands then
//     store PAGE I WORD    word I of the page's frame becomes WORD
//     tell                 tells what stands: the hand, the entries by page, the counts and the lists by frame, and what each page shows,
//                          as a number made of its 1,024 words
//
// Other lines are only printed. Numbers are decimal, but entries are told in hexadecimal digits.

use crate::fault_desk::Desk;
use std::alloc::{AllocError, Global};
use std::fmt::Write;

// The number in the field with this number, from 0, of a line that is cut at spaces; 0 where there is none.
fn number(line: &str, field: usize) -> u32 {
    line.split(' ')
        .nth(field)
        .unwrap_or("")
        .parse::<u32>()
        .unwrap_or(0)
}

// Appends a line of a schedule for each of so many steps.
fn put_each(lines: &mut String, steps: u32) -> Result<(), AllocError> {
    for step in 0..steps {
        let line = step % 8;
        if step > 0 {
            lines.push_str("\n")?;
        }
        write!(lines, "line {step} {line}")?;
    }
    Ok(())
}

// The schedule that stands behind the fourth space of a line.
fn schedule(alloc: Global, line: &str) -> Result<String, AllocError> {
    let mut text = String::new(alloc);
    for (index, field) in line.split(' ').enumerate() {
        if index > 3 {
            if index > 4 {
                text.push_str(" ")?;
            }
            text.push_str(field)?;
        }
    }
    let mut lines = String::new(alloc);
    for part in text.split(';') {
        if !lines.is_empty() {
            lines.push_str("\n")?;
        }
        if part.starts_with("each ") {
            put_each(&mut lines, number(part, 1))?;
        } else {
            lines.push_str(part)?;
        }
    }
    Ok(lines)
}

// The system that a line begins.
fn begun(alloc: Global, line: &str) -> Option<Desk> {
    if line.split(' ').next().unwrap_or("") != "system" {
        return None;
    }
    let text = schedule(alloc, line).ok()?;
    Desk::new(
        alloc,
        number(line, 1),
        number(line, 2),
        number(line, 3),
        text.as_bytes(),
    )
}

// Does what a line says, and appends what it has to tell.
fn obey(desk: &mut Desk, line: &str, told: &mut String) -> Result<(), AllocError> {
    let kind = line.split(' ').next().unwrap_or("");
    let a = number(line, 1);
    let b = number(line, 2);
    if kind == "entry" {
        desk.set_entry(a, b);
    } else if kind == "count" {
        desk.set_count(a, b);
    } else if kind == "slot" {
        desk.set_slot(a, b, number(line, 3));
    } else if kind == "hand" {
        desk.set_hand(a);
    } else if kind == "frame" {
        desk.fill_frame(a, b);
    } else if kind == "sector" {
        desk.fill_sector(a, b);
    } else if kind == "store" {
        desk.store(a, b, number(line, 3));
    } else if kind == "ask" {
        desk.ask(a, b, told)?;
    } else if kind == "tell" {
        desk.tell(told)?;
    }
    Ok(())
}

// What is printed of the lines of a text.
pub(crate) fn put_lines(alloc: Global, out: &mut String, text: &str) -> Result<(), AllocError> {
    let Some(mut desk) = Desk::new(alloc, 1, 1, 2, b"") else {
        return out.push_str("no machine\n");
    };
    for line in text.lines() {
        if let Some(new) = begun(alloc, line) {
            desk = new;
        }
        let mut told = String::new(alloc);
        obey(&mut desk, line, &mut told)?;
        writeln!(out, "{line}")?;
        if !told.is_empty() {
            writeln!(out, "{told}")?;
        }
    }
    Ok(())
}
