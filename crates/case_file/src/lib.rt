//! Cases in a text, for the programs that try many sources and whose answers are compared with stored ones. A further case is a few lines
//! of data and costs no proof. Nothing is claimed of this crate but that it is safe: what is read wrongly shows in the answers.
//!
//! A line `== KIND NAME` begins a case: the kind says what is asked of its source, the name is free. Its source goes from there to the next
//! such line or the end of the text, without the LF before that. What stands before the first case is a comment. In a source
//!
//! - `\n`, `\r`, `\t`, `\0`, `\\` and `\xHH` stand for bytes, as in Rust;
//! - a number, a blank and a part of a source between two marks `` ` `` stand for so many copies of that part; in it `?` is the number of
//!   the copy, from 0, and `^` that number plus 1;
//! - marks `~` do the same, are read after `` ` `` and may so stand between two of these.
#![tactic(auto)]

use bstr::ByteVec;
use std::alloc::{AllocError, Global};
use std::fmt::Write;

/// A case.
#[derive(Drop)]
pub struct Case {
    /// What is asked of the source: one word.
    pub kind: String,
    /// The rest of the case's first line.
    pub name: String,
    /// The source, with its escapes and copies written out.
    pub source: Vec<u8>,
}

/// The cases of a text, in their order. The one error is want of memory.
pub fn cases(alloc: Global, text: &str) -> Result<Vec<Case>, AllocError> {
    let mut cases = Vec::new(alloc);
    let whole = text.strip_suffix("\n").unwrap_or(text);
    for part in whole.split("\n== ").skip(1) {
        cases.push(case_of(alloc, part)?)?;
    }
    Ok(cases)
}

// The case whose first line begins, behind its mark, with this text.
fn case_of(alloc: Global, part: &str) -> Result<Case, AllocError> {
    let (heading, source) = part.split_once('\n').unwrap_or((part, ""));
    let (kind, name) = heading.split_once(' ').unwrap_or((heading, ""));
    let outer = with_copies(alloc, source, '`')?;
    let whole = with_copies(alloc, outer.as_str(), '~')?;
    Ok(Case {
        kind: String::from_str(alloc, kind)?,
        name: String::from_str(alloc, name)?,
        source: Vec::unescape_bytes(alloc, whole.as_str())?,
    })
}

// A source in which each part between two of these marks stands as often as it says.
fn with_copies(alloc: Global, source: &str, mark: char) -> Result<String, AllocError> {
    let mut out = String::new(alloc);
    let mut is_between = false;
    for part in source.split(mark) {
        if is_between {
            put_copies(&mut out, part)?;
        } else {
            out.push_str(part)?;
        }
        is_between = !is_between;
    }
    Ok(out)
}

// A number, a blank and a part: the part so many times.
fn put_copies(out: &mut String, counted: &str) -> Result<(), AllocError> {
    let (count, part) = counted.split_once(' ').unwrap_or(("1", counted));
    for number in 0..count.parse::<u32>().unwrap_or(0) {
        put_copy(out, part, number)?;
    }
    Ok(())
}

// A copy of a part; `?` in it is the copy's number, and `^` one more.
fn put_copy(out: &mut String, part: &str, number: u32) -> Result<(), AllocError> {
    for symbol in part.chars() {
        match symbol {
            '?' => write!(out, "{number}")?,
            '^' => write!(out, "{}", u64::from(number) + 1)?,
            _ => out.push(symbol)?,
        }
    }
    Ok(())
}
