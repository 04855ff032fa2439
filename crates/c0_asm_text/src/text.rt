// A whole asm text.

ghost use Rattle.std.specs.Prelude.{◌≡◌, ◌==◌, ◌<◌, ◌≤◌, ◌-◌, ◌^◌, ◌+◌, ◌++◌, ◌∷◌, [], length, IfOk, OnOk, IfSome, IsTrue, is_some, Option, Some, None};
ghost use Rattle.std.specs.Prelude.{if◌then◌else◌, ℕ, List};
ghost use Rattle.std.specs.Option.{option_or};
ghost use Rattle.mips_asm.specs.Text.{asm_lines};
ghost use Rattle.c0_meaning.specs.Asm.{are_allowed_words};
ghost use Rattle.c0_asm_text.specs.AsmText.{words_if, text_words, bad_line};
ghost use Rattle.c0_asm_text.specs.View.{allowed_line_view, lines_left};

use crate::line::{Line, len_before, read_line};
use std::alloc::{AllocError, Global};

/// What an asm text says.
#[derive(Drop)]
pub struct AsmReading {
    /// The words of the lines that are allowed.
    pub words: Vec<u32>,
    /// The first line that isn't allowed; that of the brace before the text is 1.
    pub bad_line: Option<u64>,
}

// The first line, and what stands after its LF if there is one.
fn cut(text: &[u8]) -> (&[u8], Option<&[u8]>)
    ensures lines { asm_lines text.now ≡ result.0.now ∷ lines_left result.1 }
    ensures parts { IfSome result.1 (λ rest. length result.0.now + 1 + length rest.now ≡ length text.now) }
    ensures within { length result.0.now ≤ length text.now }
{
    let len = len_before(b'\n', text);
    if len < text.len() {
        (&text[..len], Some(&text[len + 1..]))
    } else {
        (text, None)
    }
}

// Adds what a line says, which has this number.
fn add(reading: &mut AsmReading, line: Line, number: u64) -> Result<(), AllocError>
    ensures words { OnOk result (reading.new.words.items ≡ reading.old.words.items ++ words_if (allowed_line_view line)) }
    ensures bad { OnOk result (reading.new.bad_line ≡ option_or reading.old.bad_line (if is_some (allowed_line_view line) then None else Some number)) }
{
    match line {
        Line::Blank => {}
        Line::Word(word) => reading.words.push(word).map_err(|_| AllocError)?,
        Line::NotAllowed => {
            if reading.bad_line.is_none() {
                reading.bad_line = Some(number);
            }
        }
    }
    Ok(())
}

/// The words of an asm text, and the first line that isn't allowed: its lines are cut at LF, and each is blank, a comment,
/// or one instruction without label that an asm function may have.
pub fn read_asm(alloc: Global, text: &[u8]) -> Result<AsmReading, AllocError>
    ensures words { IfOk result (λ r. r.words.items ≡ text_words text.now) }
    ensures bad { IfOk result (λ r. r.bad_line ≡ bad_line text.now) }
    ensures within { IfOk result (λ r. IfSome r.bad_line (λ n. n ≤ length text.now)) }
    ensures allowed { IfOk result (λ r. IsTrue (are_allowed_words r.words.items)) }
{
    let mut reading = AsmReading {
        words: Vec::new(alloc),
        bad_line: None,
    };
    let mut number = 1u64;
    let mut here = text;
    loop {
        let (line, after) = cut(here);
        add(&mut reading, read_line(alloc, line)?, number)?;
        let Some(rest) = after else {
            return Ok(reading);
        };
        number += 1;
        here = rest;
    }
}

/// A law: the words of every text are those of instructions that an asm function may have.
pub fn words_are_allowed()
    ensures { (text : List ℕ) → IsTrue (are_allowed_words (text_words text)) }
{}
