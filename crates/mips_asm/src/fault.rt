// The faults of a text, and the fault of a line.

ghost use Rattle.std.specs.Prelude.{◌≡◌, ◌<◌, ◌≤◌, ◌+◌, ◌^◌, ◌%◌, IfSome};
ghost use Rattle.std.specs.Option.{option_or};
ghost use Rattle.mips_asm.specs.Assembled.{meaning_fault, twice_fault, branch_offset as offset_of, branch_to as branch_to_of, jump_to as jump_to_of};
ghost use Rattle.mips_asm.specs.Assembled.{labels_resolved as resolved_of};
ghost use Rattle.mips_asm.specs.Fault.{asm_fault_number, asm_fault_position, asm_fault_line, asm_fault_value};
ghost use Rattle.mips_asm.specs.Passes.{label_of, Near};
ghost use Rattle.mips_asm.specs.View.{line_view};

use crate::line::{Line, with_reading};
use crate::operand::{Reading, signed};
use indexmap::IndexMap;
use thiserror::Error;

/// Why a text has no words. Lines are counted from 1, and bytes of the text from 0.
#[derive(Clone, Copy, Debug, PartialEq, Eq, Error)]
pub enum AsmFault {
    /// A byte that is neither printable ASCII nor a tab, CR or LF.
    #[error("the byte at {at} is none of a text")]
    BadByte { at: u64 },
    /// No mnemonic or directive has this name.
    #[error("line {line}: unknown mnemonic")]
    UnknownMnemonic { line: u64 },
    /// The operands, or the rest of the line, don't have the instruction's form.
    #[error("line {line}: bad operand")]
    BadOperand { line: u64 },
    /// A value that its operand can't have: a number, or a branch's offset in words.
    #[error("line {line}: {value} is out of range")]
    OutOfRange { line: u64, value: i64 },
    /// A label that is never set.
    #[error("line {line}: unknown label")]
    UnknownLabel { line: u64 },
    /// A label that was set before.
    #[error("line {line}: a label is set twice")]
    LabelTwice { line: u64 },
    /// More than 65,536 words.
    #[error("more than 65536 words")]
    TooLong,
    /// Want of memory.
    #[error("out of memory")]
    Memory,
}

impl AsmFault {
    /// The number that is printed for it: 1 to 7, or 8 for want of memory.
    pub fn number(&self) -> u32
        ensures { result ≡ asm_fault_number self.now }
    {
        match self {
            AsmFault::BadByte { .. } => 1,
            AsmFault::UnknownMnemonic { .. } => 2,
            AsmFault::BadOperand { .. } => 3,
            AsmFault::OutOfRange { .. } => 4,
            AsmFault::UnknownLabel { .. } => 5,
            AsmFault::LabelTwice { .. } => 6,
            AsmFault::TooLong => 7,
            AsmFault::Memory => 8,
        }
    }

    /// The byte of the text that it names, if any.
    pub fn at(&self) -> Option<u64>
        ensures { result ≡ asm_fault_position self.now }
    {
        match self {
            AsmFault::BadByte { at } => Some(*at),
            _ => None,
        }
    }

    /// The line of the text that it names, if any.
    pub fn line(&self) -> Option<u64>
        ensures { result ≡ asm_fault_line self.now }
    {
        match self {
            AsmFault::BadByte { .. } => None,
            AsmFault::UnknownMnemonic { line } => Some(*line),
            AsmFault::BadOperand { line } => Some(*line),
            AsmFault::OutOfRange { line, .. } => Some(*line),
            AsmFault::UnknownLabel { line } => Some(*line),
            AsmFault::LabelTwice { line } => Some(*line),
            AsmFault::TooLong => None,
            AsmFault::Memory => None,
        }
    }

    /// The number that its operand can't have, where that is the fault.
    pub fn value(&self) -> Option<i64>
        ensures { result ≡ asm_fault_value self.now }
    {
        match self {
            AsmFault::OutOfRange { value, .. } => Some(*value),
            _ => None,
        }
    }
}

// The offset of a branch at one word to another.
fn offset(at: u64, to: u64) -> i64
    requires at { at < 2 ^ 62 }
    requires to { to < 2 ^ 62 }
    ensures { result ≡ offset_of at to }
{
    to as i64 - (at as i64 + 1)
}

// A branch at a position, whose label has this position.
fn branch_to<'a>(word: u32, at: u64, position: Option<u64>) -> Line<'a>
    requires at { at < 2 ^ 62 }
    requires to { IfSome position (λ p. p < 2 ^ 62) }
    ensures { line_view result ≡ branch_to_of word at position }
{
    match position {
        None => Line::UnknownLabel,
        Some(to) => with_reading(Line::Word(word), Some(signed(offset(at, to)))),
    }
}

// A jump to a label that has this position.
fn jump_to<'a>(word: u32, position: Option<u64>) -> Line<'a>
    ensures { line_view result ≡ jump_to_of word position }
{
    match position {
        None => Line::UnknownLabel,
        Some(to) => with_reading(
            Line::Word(word),
            Some(Reading::Adds((to % (1 << 26)) as u32)),
        ),
    }
}

// The position of a label.
fn position_at(positions: &IndexMap<&[u8], u64>, label: &[u8]) -> Option<u64>
    ensures { result ≡ label_of positions.now label.now }
{
    positions.get(label).copied()
}

/// What a line at this position gives where the positions of the labels are known.
pub fn resolve<'a>(positions: &IndexMap<&[u8], u64>, at: u64, line: Line<'a>) -> Line<'a>
    requires at { at < 2 ^ 62 }
    requires positions { Near positions.now }
    ensures { line_view result ≡ resolved_of (label_of positions.now) at (line_view line.entry) }
{
    match line {
        Line::Branch(word, label) => branch_to(word, at, position_at(positions, label)),
        Line::Jump(word, label) => jump_to(word, position_at(positions, label)),
        line => line,
    }
}

/// The least fault of a line with this number, whose first bad byte stands at this position of the text; `twice` says whether
/// the line sets a label again.
pub fn line_fault(bad: u64, number: u64, line: &Line, twice: bool) -> Option<AsmFault>
    ensures { result ≡ option_or (meaning_fault bad number (line_view line.now)) (twice_fault number twice) }
{
    match line {
        Line::BadByte => Some(AsmFault::BadByte { at: bad }),
        Line::Unknown => Some(AsmFault::UnknownMnemonic { line: number }),
        Line::BadOperand => Some(AsmFault::BadOperand { line: number }),
        Line::OutOfRange(value, _) => Some(AsmFault::OutOfRange {
            line: number,
            value: *value,
        }),
        Line::UnknownLabel => Some(AsmFault::UnknownLabel { line: number }),
        _ if twice => Some(AsmFault::LabelTwice { line: number }),
        _ => None,
    }
}
