// Rows, and the row that a line of the text writes.

ghost use Rattle.std.specs.Prelude.{◌≡◌, ℕ, List, Some};
ghost use Rattle.schedule_file.specs.Text.{row_of, row_of_words as row_in_words, row_of_pair as row_in_pair};
ghost use Rattle.schedule_file.specs.Spelling.{spelling, RowFits, IsSpelled};
ghost use Rattle.schedule_file.specs.declared.row.Row.{Row};

use crate::lines::Lines;
use cvm_text::{cut, whole_number, whole_numbers_are_spelled};

/// Lines that are raised at a step.
#[derive(Clone, Copy, Debug, PartialEq, Eq)]
pub struct LineRow {
    /// The step's number, from 0.
    pub step: u64,
    /// What is raised.
    pub lines: Lines,
}

/// How long a command keeps the disk busy.
#[derive(Clone, Copy, Debug, PartialEq, Eq)]
pub struct BusyRow {
    /// The command's number, from 0.
    pub command: u64,
    /// The busy time, in steps.
    pub steps: u64,
}

/// A row as it is written: its numbers may be out of range.
#[derive(Clone, Copy, Debug, PartialEq, Eq)]
pub enum Row {
    /// At a step a line is raised.
    Line(u64, u64),
    /// A command is busy for so many steps.
    Busy(u64, u64),
    /// The console's input has this word.
    Input(u64),
}

// The row of a line with these three words.
#[tactic(auto, unfolding(crate::specs::Text::row_of_words))]
fn row_of_words(kind: &[u8], first: &[u8], second: &[u8]) -> Option<Row>
    ensures { result ≡ row_in_words kind.now first.now second.now }
{
    let first = whole_number(first)?;
    let second = whole_number(second)?;
    if kind == b"line".as_slice() {
        Some(Row::Line(first, second))
    } else if kind == b"busy".as_slice() {
        Some(Row::Busy(first, second))
    } else {
        None
    }
}

// The row of a line with these two words.
#[tactic(auto, unfolding(crate::specs::Text::row_of_pair))]
fn row_of_pair(kind: &[u8], word: &[u8]) -> Option<Row>
    ensures { result ≡ row_in_pair kind.now word.now }
{
    let word = whole_number(word)?;
    if kind == b"input".as_slice() {
        Some(Row::Input(word))
    } else {
        None
    }
}

/// The row that a line writes.
pub fn row_in(line: &[u8]) -> Option<Row>
    ensures { result ≡ row_of line.now }
{
    let (kind, rest) = cut(line, b' ');
    let (first, rest) = cut(rest?, b' ');
    let Some(rest) = rest else {
        return row_of_pair(kind, first);
    };
    let (second, rest) = cut(rest, b' ');
    if rest.is_some() {
        return None;
    }
    row_of_words(kind, first, second)
}

/// A law: each row whose numbers are below 2^64 is read from its spelling.
pub fn spelled_rows_are_read()
    ensures { (row : Row) → RowFits row → row_of (spelling row) ≡ Some row }
{
    whole_numbers_are_spelled();
}

/// A law: a line that is read is the spelling of its row, whose numbers are
/// below 2^64.
pub fn read_rows_are_spelled()
    ensures { (line : List ℕ) (row : Row) → row_of line ≡ Some row → IsSpelled line row }
{
    whole_numbers_are_spelled();
}
