// One line of an asm text.

ghost use Rattle.std.specs.Prelude.{◌≡◌, ◌==◌, ◌≤◌, length, IfOk, slice_index, not, ◌&&◌};
ghost use Rattle.std.specs.List.{list_any, prefix_len};
ghost use Rattle.std.specs.Char.{is_ascii_whitespace};
ghost use Rattle.mips_asm.specs.Text.{content as content_of, trim_start as trim_start_of};
ghost use Rattle.c0_meaning.specs.Asm.{may_use as may_use_of, is_allowed as is_allowed_of, is_allowed_word as is_allowed_word_of};
ghost use Rattle.c0_asm_text.specs.AsmText.{is_plain_line as is_plain_of, allowed as allowed_of, line_words};
ghost use Rattle.c0_asm_text.specs.View.{allowed_line_view};

use mips_asm::{AsmFault, assemble};
use mips_table::{Inst, decode};
use std::alloc::{AllocError, Global};

/// What a line says.
#[derive(Clone, Copy, PartialEq, Eq, Debug, Drop)]
pub enum Line {
    /// No instruction.
    Blank,
    /// An instruction that an asm function may have.
    Word(u32),
    /// Anything else.
    NotAllowed,
}

// Whether an asm function may use a register: 0, and 2 to 7.
fn may_use(register: u32) -> bool
    ensures { result ≡ may_use_of register }
{
    register == 0 || (register >= 2 && register <= 7)
}

// Whether an asm function may use both registers.
fn both(first: u32, second: u32) -> bool
    ensures { result ≡ (may_use_of first && may_use_of second) }
{
    may_use(first) && may_use(second)
}

// Whether an asm function may use all three registers.
fn three(first: u32, second: u32, third: u32) -> bool
    ensures { result ≡ (may_use_of first && (may_use_of second && may_use_of third)) }
{
    may_use(first) && both(second, third)
}

// Whether an asm function may have an instruction.
fn is_allowed(inst: Inst) -> bool
    ensures { result ≡ is_allowed_of inst }
{
    match inst {
        Inst::Sll { rd, rt, .. } => both(rd, rt),
        Inst::Srl { rd, rt, .. } => both(rd, rt),
        Inst::Sra { rd, rt, .. } => both(rd, rt),
        Inst::Sllv { rd, rt, rs } => three(rd, rt, rs),
        Inst::Srlv { rd, rt, rs } => three(rd, rt, rs),
        Inst::Srav { rd, rt, rs } => three(rd, rt, rs),
        Inst::Addu { rd, rs, rt } => three(rd, rs, rt),
        Inst::Subu { rd, rs, rt } => three(rd, rs, rt),
        Inst::And { rd, rs, rt } => three(rd, rs, rt),
        Inst::Or { rd, rs, rt } => three(rd, rs, rt),
        Inst::Xor { rd, rs, rt } => three(rd, rs, rt),
        Inst::Nor { rd, rs, rt } => three(rd, rs, rt),
        Inst::Slt { rd, rs, rt } => three(rd, rs, rt),
        Inst::Sltu { rd, rs, rt } => three(rd, rs, rt),
        Inst::Addiu { rt, rs, .. } => both(rt, rs),
        Inst::Slti { rt, rs, .. } => both(rt, rs),
        Inst::Sltiu { rt, rs, .. } => both(rt, rs),
        Inst::Andi { rt, rs, .. } => both(rt, rs),
        Inst::Ori { rt, rs, .. } => both(rt, rs),
        Inst::Xori { rt, rs, .. } => both(rt, rs),
        Inst::Lui { rt, .. } => may_use(rt),
        Inst::Jr { .. } => false,
        Inst::Jalr { .. } => false,
        Inst::Syscall { .. } => false,
        Inst::Add { .. } => false,
        Inst::Sub { .. } => false,
        Inst::Bltz { .. } => false,
        Inst::Bgez { .. } => false,
        Inst::J { .. } => false,
        Inst::Jal { .. } => false,
        Inst::Beq { .. } => false,
        Inst::Bne { .. } => false,
        Inst::Blez { .. } => false,
        Inst::Bgtz { .. } => false,
        Inst::Addi { .. } => false,
        Inst::Mfc0 { .. } => false,
        Inst::Mtc0 { .. } => false,
        Inst::Eret => false,
        Inst::Lw { .. } => false,
        Inst::Sw { .. } => false,
        Inst::Mult { .. } => false,
        Inst::Multu { .. } => false,
        Inst::Div { .. } => false,
        Inst::Divu { .. } => false,
        Inst::Mfhi { .. } => false,
        Inst::Mthi { .. } => false,
        Inst::Mflo { .. } => false,
        Inst::Mtlo { .. } => false,
    }
}

/// Whether a word is that of an instruction that an asm function may have.
pub fn is_allowed_word(word: u32) -> bool
    ensures { result ≡ is_allowed_word_of word }
{
    match decode(word) {
        Some(inst) => is_allowed(inst),
        None => false,
    }
}

// How many bytes stand before the first of a kind.
pub(crate) fn len_before(byte: u8, text: &[u8]) -> usize
    ensures value { result ≡ prefix_len (λ c. not (c == byte)) text.now }
    ensures within { result ≤ length text.now }
{
    text.iter().take_while(|c| **c != byte).count()
}

// How many blanks a line begins with.
fn blanks(line: &[u8]) -> usize
    ensures value { result ≡ prefix_len is_ascii_whitespace line.now }
    ensures within { result ≤ length line.now }
{
    line.iter().take_while(|c| c.is_ascii_whitespace()).count()
}

// The bytes before the comment.
fn content(line: &[u8]) -> &[u8]
    ensures { result.now ≡ content_of line.now }
{
    &line[..len_before(b'#', line)]
}

// Whether a line has a label or what looks like one.
fn has_colon(line: &[u8]) -> bool
    ensures { result ≡ list_any (λ c. c == 58) (content_of line.now) }
{
    content(line).iter().any(|c| *c == b':')
}

// Whether a line has a directive or what looks like one.
fn has_dot(line: &[u8]) -> bool
    ensures { result ≡ (slice_index (trim_start_of line.now) 0 == 46) }
{
    let text = &line[blanks(line)..];
    !text.is_empty() && text[0] == b'.'
}

// What a line says that assembles by itself to these words.
fn of_words(words: &[u32]) -> Line
    ensures { allowed_line_view result ≡ allowed_of words.now }
{
    match words {
        [] => Line::Blank,
        [word] => {
            if is_allowed_word(*word) {
                Line::Word(*word)
            } else {
                Line::NotAllowed
            }
        }
        [_, _, ..] => Line::NotAllowed,
    }
}

/// What a line says.
#[tactic(auto, unfolding(crate::specs::AsmText::line_words))]
pub fn read_line(alloc: Global, line: &[u8]) -> Result<Line, AllocError>
    ensures { IfOk result (λ r. allowed_line_view r ≡ line_words line.now) }
{
    if has_colon(line) || has_dot(line) {
        return Ok(Line::NotAllowed);
    }
    match assemble(alloc, line) {
        Ok(words) => Ok(of_words(&words)),
        Err(AsmFault::Memory) => Err(AllocError),
        Err(_) => Ok(Line::NotAllowed),
    }
}
