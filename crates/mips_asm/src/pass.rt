// The passes over the lines of a text.

ghost use Rattle.std.specs.Prelude.{◌≡◌, ◌≤◌, ◌<◌, ◌+◌, ◌++◌, ◌^◌, ℕ, List, false, OnOk, IfOk, IfSome, is_some, length, ◌||◌, Some, None, []};
ghost use Rattle.mips_asm.specs.Text.{colon_parts, labels_in, asm_lines};
ghost use Rattle.mips_asm.specs.Assembled.{label_position, has, labels, meaning_words};
ghost use Rattle.mips_asm.specs.Passes.{label_of, Near, SetsLabels, repeats_in, line_fault_at, fault_from, line_words_from};
ghost use Rattle.mips_asm.specs.View.{line_view};

use crate::fault::{AsmFault, line_fault, resolve};
use crate::line::{Line, good_len, label_text, next_label, read_line, width};
use cvm_text::cut;
use indexmap::IndexMap;
use std::alloc::{AllocError, Global};

// Sets the labels of a line's content that are not set yet, and answers whether one was set before.
fn set_labels<'a>(
    positions: &mut IndexMap<&'a [u8], u64>,
    text: &'a [u8],
    at: u64,
) -> Result<bool, AllocError>
    ensures positions { OnOk result (SetsLabels positions.old positions.new (labels_in (colon_parts text.now)) at) }
    ensures twice { IfOk result (λ t. t ≡ repeats_in (λ q. is_some (label_of positions.old q)) (labels_in (colon_parts text.now))) }
{
    let mut twice = false;
    let mut rest = text;
    while let Some((label, after)) = next_label(rest) {
        match positions.get(label) {
            Some(_) => twice = true,
            None => match positions.insert(label, at) {
                Ok(_) => {}
                Err(_) => return Err(AllocError),
            },
        }
        rest = after;
    }
    Ok(twice)
}

// The position after a line of so many words. A text that passes 2^62 words would take petabytes.
fn next_position(at: u64, width: u32) -> Result<u64, AllocError>
    requires { at < 2 ^ 62 }
    ensures value { IfOk result (λ n. n ≡ at + width) }
    ensures near { IfOk result (λ n. n < 2 ^ 62) }
{
    let next = at + u64::from(width);
    if next < 1 << 62 {
        Ok(next)
    } else {
        Err(AllocError)
    }
}

/// The positions of all labels, in words from the text's start.
pub fn positions(alloc: Global, text: &[u8]) -> Result<IndexMap<&[u8], u64>, AllocError>
    ensures positions { IfOk result (λ m. (q : List ℕ) → label_of m q ≡ label_position (asm_lines text.now) q) }
    ensures near { IfOk result (λ m. Near m) }
{
    let mut positions = IndexMap::new(alloc);
    let mut at = 0u64;
    let mut here = text;
    loop {
        let (line, after) = cut(here, b'\n');
        set_labels(&mut positions, label_text(line), at)?;
        let Some(after) = after else {
            return Ok(positions);
        };
        at = next_position(at, width(&read_line(line)))?;
        here = after;
    }
}

// The fault of a line that starts at this byte and has this number and position, where the labels of the lines before are
// in `seen`; its own labels are added to them.
fn fault_of_line<'a>(
    seen: &mut IndexMap<&'a [u8], u64>,
    positions: &IndexMap<&[u8], u64>,
    start: usize,
    number: u64,
    at: u64,
    line: &'a [u8],
) -> Result<Option<AsmFault>, AllocError>
    requires positions { Near positions.now }
    requires at { at < 2 ^ 62 }
    requires start { start + length line.now < 2 ^ 64 }
    ensures fault { IfOk result (λ f. f ≡ line_fault_at (label_of positions.now) (λ q. is_some (label_of seen.old q)) start number at line.now) }
    ensures seen { OnOk result ((q : List ℕ) → is_some (label_of seen.new q) ≡ (is_some (label_of seen.old q) || has (labels line.now) q)) }
{
    let twice = set_labels(seen, label_text(line), at)?;
    let bad = (start + good_len(line)) as u64;
    Ok(line_fault(bad, number, &resolve(positions, at, read_line(line)), twice))
}

/// The first fault of a text whose labels have these positions.
pub fn first_fault(
    alloc: Global,
    positions: &IndexMap<&[u8], u64>,
    text: &[u8],
) -> Result<Option<AsmFault>, AllocError>
    requires { Near positions.now }
    ensures { IfOk result (λ f. f ≡ fault_from (label_of positions.now) (λ q. false) 0 1 0 (asm_lines text.now)) }
{
    let mut seen = IndexMap::new(alloc);
    let mut start = 0usize;
    let mut number = 1u64;
    let mut at = 0u64;
    let mut here = text;
    loop {
        let (line, after) = cut(here, b'\n');
        let fault = fault_of_line(&mut seen, positions, start, number, at, line)?;
        if fault.is_some() {
            return Ok(fault);
        }
        at = next_position(at, width(&read_line(line)))?;
        let Some(after) = after else {
            return Ok(too_long(at));
        };
        start += line.len() + 1;
        number += 1;
        here = after;
    }
}

// The fault of a text without another fault that has so many words.
fn too_long(words: u64) -> Option<AsmFault>
    ensures { result ≡ fault_from (λ q. None) (λ q. false) 0 1 words [] }
{
    if words > 65536 {
        Some(AsmFault::TooLong)
    } else {
        None
    }
}

// Appends the words in what a line gives.
fn append(words: &mut Vec<u32>, line: &Line) -> Result<(), AllocError>
    ensures { OnOk result (words.new.items ≡ words.old.items ++ meaning_words (line_view line.now)) }
{
    match line {
        Line::Word(word) => words.push(*word).map_err(|_| AllocError),
        Line::Zeros(count) => words.resize(words.len() + *count as usize, 0),
        _ => Ok(()),
    }
}

/// The words of a text whose labels have these positions.
pub fn words(
    alloc: Global,
    positions: &IndexMap<&[u8], u64>,
    text: &[u8],
) -> Result<Vec<u32>, AllocError>
    requires { Near positions.now }
    ensures { IfOk result (λ ws. ws.items ≡ line_words_from (label_of positions.now) 0 (asm_lines text.now)) }
{
    let mut words = Vec::new(alloc);
    let mut at = 0u64;
    let mut here = text;
    loop {
        let (line, after) = cut(here, b'\n');
        let meaning = read_line(line);
        append(&mut words, &resolve(positions, at, meaning))?;
        let Some(after) = after else {
            return Ok(words);
        };
        at = next_position(at, width(&meaning))?;
        here = after;
    }
}
