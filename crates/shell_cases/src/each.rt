// A command that is run for each number of a range.

use crate::{World, run_words};
use case_file::Case;
use std::alloc::{AllocError, Global};
use std::fmt::Write;

// A text with a number in the place of each `@`.
fn with_number(alloc: Global, text: &[u8], number: u32) -> Result<Vec<u8>, AllocError> {
    let digits = format!(in alloc; "{number}")?;
    let mut bytes = Vec::new(alloc);
    for byte in text {
        if *byte == b'@' {
            bytes.extend_from_slice(digits.as_bytes())?;
        } else {
            bytes.push(*byte)?;
        }
    }
    Ok(bytes)
}

// Prints how often a text came in succession, and the text.
fn put_times(out: &mut String, count: u32, text: &str) -> Result<(), AllocError> {
    if count > 0 {
        writeln!(out, "{count} x")?;
    }
    out.push_str(text)
}

/// Runs a command once for each number of a range, over a file whose text has that number in the place of each `@`. The range, the file's name and
/// the command stand in the part's name, the text below it. Prints the texts with their status, each with how often it came in succession.
pub fn run_each(
    alloc: Global,
    world: &mut World,
    out: &mut String,
    part: &Case,
) -> Result<(), AllocError> {
    let (from, rest) = part.name.as_str().split_once(' ').unwrap_or(("", ""));
    let (to, rest) = rest.split_once(' ').unwrap_or(("", ""));
    let (name, words) = rest.split_once(' ').unwrap_or(("", ""));
    let from = from.parse::<u32>().unwrap_or(0);
    let to = to.parse::<u32>().unwrap_or(0);
    let mut last = String::new(alloc);
    let mut count = 0u32;
    for number in from..to.saturating_add(1) {
        let file = with_number(alloc, &part.source, number)?;
        world.shelf.place(alloc, name, &file)?;
        let mut text = String::new(alloc);
        run_words(alloc, world, &mut text, words)?;
        if text != last {
            put_times(out, count, last.as_str())?;
            last = text;
            count = 0;
        }
        count = count.saturating_add(1);
    }
    put_times(out, count, last.as_str())
}
