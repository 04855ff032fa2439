// Texts in assembler: the words of each, and the text that they are written as.

use cvm_text::hex8;
use mips_asm::{AsmFault, assemble, disassemble};
use std::alloc::{AllocError, Global};
use std::fmt::Write;

/// The greatest number of words that are shown one by one.
const FEW: usize = 16;

// Shows the lines of a text, each after a bar.
fn show_lines(shown: &mut String, text: &[u8]) -> Result<(), AllocError> {
    for c in text {
        if *c == b'\n' {
            shown.push_str(" |")?;
        } else {
            shown.push(char::from(*c))?;
        }
    }
    Ok(())
}

// Shows words, and the text that they are written as; of many words the count alone.
fn show_words(alloc: Global, shown: &mut String, words: &[u32]) -> Result<(), AllocError> {
    if words.len() > FEW {
        let count = words.len();
        return write!(shown, " words {count}");
    }
    for word in words {
        shown.push(' ')?;
        shown.push_str(hex8(*word).as_str())?;
    }
    shown.push_str(" |")?;
    let text = disassemble(alloc, words)?;
    show_lines(shown, text.as_slice())?;
    show_other(alloc, shown, words, text.as_slice())
}

// Says of a text that words are written as whether it is read as other words: of none that is right.
fn show_other(
    alloc: Global,
    shown: &mut String,
    words: &[u32],
    text: &[u8],
) -> Result<(), AllocError> {
    match assemble(alloc, text) {
        Ok(again) if again.as_slice() == words => Ok(()),
        _ => shown.push_str(" but is read otherwise"),
    }
}

// Shows why a text has no words: the fault's number and its fields.
fn show_fault(shown: &mut String, fault: AsmFault) -> Result<(), AllocError> {
    write!(shown, " refused {}", fault.number())?;
    if let Some(at) = fault.at() {
        write!(shown, " {at}")?;
    }
    if let Some(line) = fault.line() {
        write!(shown, " {line}")?;
    }
    if let Some(value) = fault.value() {
        write!(shown, " {value}")?;
    }
    Ok(())
}

// What is printed of a text: what it is read as.
pub(crate) fn put_text(alloc: Global, shown: &mut String, text: &[u8]) -> Result<(), AllocError> {
    match assemble(alloc, text) {
        Ok(words) => show_words(alloc, shown, words.as_slice())?,
        Err(fault) => show_fault(shown, fault)?,
    }
    shown.push('\n')
}
