// The meaning of a line.

ghost use Rattle.std.specs.Prelude.{◌≡◌, ◌≤◌, ◌<◌, [], length, drop, take, MatchOption, All, Some, None, IfSome};
ghost use Rattle.mips_asm.specs.Text.{colon_parts, labels_in, after_labels as after_labels_of, content as content_of};
ghost use Rattle.mips_asm.specs.Text.{is_good_byte as is_good_byte_of, EndAlike, TakesLabel};
ghost use Rattle.mips_asm.specs.Line.{line_meaning as meaning_of, width as width_of, mnemonic_len as mnemonic_len_of, word_directive as word_directive_of};
ghost use Rattle.mips_asm.specs.Line.{zero_directive as zero_directive_of, with_reading as with_reading_of, with_operands as with_operands_of};
ghost use Rattle.mips_asm.specs.Line.{operand_texts as operands_of, may_be_left_out as may_be_left_out_of, instruction as instruction_of, named as named_of};
ghost use Rattle.mips_asm.specs.Line.{statement as statement_of, of_parts, is_known as is_known_of, left_colon};
ghost use Rattle.mips_asm.specs.Form.{form_of};
ghost use Rattle.mips_asm.specs.Number.{in_name as in_name_of};
ghost use Rattle.std.specs.List.{prefix_len, list_all};
ghost use Rattle.std.specs.Char.{is_ascii_whitespace};
ghost use Rattle.std.specs.Prelude.{option_map, is_some, not, ◌==◌};
ghost use Rattle.mips_asm.specs.View.{line_view, reading_view, parts_left};

use crate::form::Operand;
use crate::form_table::form_named;
use crate::number::{in_name, is_name, number};
use crate::operand::{Reading, len_before, read_operand};
use cvm_text::{cut, trim, trim_start};
use mips_table::encode;

/// What a line gives. `read_line` knows no positions of labels; `resolve` puts them in.
#[derive(Clone, Copy)]
pub enum Line<'a> {
    /// A byte that no text may have: no word.
    BadByte,
    /// No mnemonic and no directive: no word.
    Unknown,
    /// Operands that the mnemonic or directive doesn't have: no word.
    BadOperand,
    /// A value out of its range, and how many words the line counts for the addresses.
    OutOfRange(i64, u32),
    /// A branch or jump to a label that is never set: one word.
    UnknownLabel,
    /// Blanks, labels and a comment alone: no word.
    Nothing,
    /// An instruction's word, or a `.word`'s.
    Word(u32),
    /// So many words of 0, at most 65,536.
    Zeros(u32),
    /// A branch's word with the offset 0, and the label that it goes to.
    Branch(u32, &'a [u8]),
    /// A jump's word with the index 0, and the label that it goes to.
    Jump(u32, &'a [u8]),
}

/// How many words a line counts for the addresses.
pub fn width(line: &Line) -> u32
    ensures { result ≡ width_of (line_view line.now) }
{
    match line {
        Line::BadByte => 0,
        Line::Unknown => 0,
        Line::BadOperand => 0,
        Line::OutOfRange(_, words) => *words,
        Line::UnknownLabel => 1,
        Line::Nothing => 0,
        Line::Word(_) => 1,
        Line::Zeros(count) => *count,
        Line::Branch(_, _) => 1,
        Line::Jump(_, _) => 1,
    }
}

/// The first label of a line's content and what stands after it.
pub fn next_label(text: &[u8]) -> Option<(&[u8], &[u8])>
    ensures labels { MatchOption result (labels_in (colon_parts text.now) ≡ []) (λ r. TakesLabel text.now r.0.now r.1.now) }
    ensures after { MatchOption result (after_labels_of (colon_parts text.now) ≡ colon_parts text.now) (λ r. EndAlike text.now r.1.now) }
    ensures shorter { IfSome result (λ r. length r.1.now < length text.now) }
{
    let (part, rest) = cut(text, b':');
    let rest = rest?;
    let label = trim_start(part);
    if is_name(label) {
        Some((label, rest))
    } else {
        None
    }
}

// The length of the mnemonic at the head of a statement.
fn mnemonic_len(text: &[u8]) -> usize
    ensures value { result ≡ mnemonic_len_of text.now }
    ensures within { result ≤ length text.now }
{
    let dot = if !text.is_empty() && text[0] == b'.' {
        1
    } else {
        0
    };
    dot + name_len(&text[dot..])
}

// The length of the longest front that may stand in a name.
fn name_len(text: &[u8]) -> usize
    ensures value { result ≡ prefix_len in_name_of text.now }
    ensures within { result ≤ length text.now }
{
    for (index, c) in text.iter().enumerate() {
        if !in_name(*c) {
            return index;
        }
    }
    text.len()
}

// What `.word` gives.
fn word_directive<'a>(value: Option<i64>) -> Line<'a>
    ensures { line_view result ≡ word_directive_of value }
{
    match value {
        None => Line::BadOperand,
        Some(z) => {
            if z < -2147483648 || z > 4294967295 {
                Line::OutOfRange(z, 1)
            } else if z < 0 {
                Line::Word((z as i32).cast_unsigned())
            } else {
                Line::Word(z as u32)
            }
        }
    }
}

// What `.zero` gives.
fn zero_directive<'a>(value: Option<i64>) -> Line<'a>
    ensures { line_view result ≡ zero_directive_of value }
{
    match value {
        None => Line::BadOperand,
        Some(z) => {
            if z >= 0 && z <= 65536 {
                Line::Zeros(z as u32)
            } else {
                Line::OutOfRange(z, 0)
            }
        }
    }
}

/// The line with one more operand.
pub fn with_reading<'a>(line: Line<'a>, reading: Option<Reading<'a>>) -> Line<'a>
    ensures { line_view result ≡ with_reading_of (line_view line.entry) (option_map reading_view reading.entry) }
{
    let Some(reading) = reading else {
        return Line::BadOperand;
    };
    match line {
        Line::Word(word) => match reading {
            Reading::Adds(n) => Line::Word(word.wrapping_add(n)),
            Reading::Out(value) => Line::OutOfRange(value, 1),
            Reading::BranchLabel(label) => Line::Branch(word, label),
            Reading::JumpLabel(label) => Line::Jump(word, label),
        },
        line => line,
    }
}

// Whether there are only blanks.
fn is_blank(text: &[u8]) -> bool
    ensures { result ≡ list_all is_ascii_whitespace text.now }
{
    text.iter().all(|c| c.is_ascii_whitespace())
}

// The texts of the operands, before they are cut at the commas.
fn operand_text(text: &[u8]) -> Option<&[u8]>
    ensures { parts_left result ≡ operands_of text.now }
{
    if is_blank(text) { None } else { Some(text) }
}

// Whether an operand may be left out.
fn may_be_left_out(operand: Operand) -> bool
    ensures { result ≡ may_be_left_out_of operand }
{
    matches!(operand, Operand::Code)
}

// The line with its operands, whose texts stand between commas.
fn with_operands<'a>(start: Line<'a>, kinds: &[Operand], text: &'a [u8]) -> Line<'a>
    ensures { line_view result ≡ with_operands_of (line_view start.entry) kinds.now (operands_of text.now) }
{
    let mut line = start;
    let mut rest = operand_text(text);
    for kind in kinds {
        match rest {
            None => {
                if !may_be_left_out(*kind) {
                    return Line::BadOperand;
                }
            }
            Some(here) => {
                let (first, after) = cut(here, b',');
                line = with_reading(line, read_operand(*kind, trim(first)));
                rest = after;
            }
        }
    }
    match rest {
        None => line,
        Some(_) => Line::BadOperand,
    }
}

// An instruction.
fn instruction<'a>(mnemonic: &[u8], rest: &'a [u8]) -> Line<'a>
    ensures { line_view result ≡ instruction_of (form_of mnemonic.now) rest.now }
{
    match form_named(mnemonic) {
        None => Line::Unknown,
        Some(form) => with_operands(Line::Word(encode(&form.inst)), form.operands, rest),
    }
}

// An instruction or a directive.
fn named<'a>(mnemonic: &[u8], rest: &'a [u8]) -> Line<'a>
    ensures { line_view result ≡ named_of mnemonic.now rest.now }
{
    if mnemonic == b".word".as_slice() {
        word_directive(number(trim(rest)))
    } else if mnemonic == b".zero".as_slice() {
        zero_directive(number(trim(rest)))
    } else {
        instruction(mnemonic, rest)
    }
}

// What a statement gives, with no label and no blank before it.
#[tactic(auto, unfolding(crate::specs::Line::statement))]
fn statement(text: &[u8]) -> Line<'_>
    ensures { line_view result ≡ statement_of text.now }
{
    if text.is_empty() {
        return Line::Nothing;
    }
    let len = mnemonic_len(text);
    named(&text[..len], &text[len..])
}

// What stands after the labels.
fn after_labels(text: &[u8]) -> &[u8]
    ensures { colon_parts result.now ≡ after_labels_of (colon_parts text.now) }
{
    let mut rest = text;
    while let Some((_, after)) = next_label(rest) {
        rest = after;
    }
    rest
}

/// The content of a line: what stands before the comment.
pub fn content(line: &[u8]) -> &[u8]
    ensures { result.now ≡ content_of line.now }
{
    &line[..len_before(b'#', line)]
}

// Whether there is such a mnemonic or directive.
fn is_known(mnemonic: &[u8]) -> bool
    ensures { result ≡ is_known_of mnemonic.now }
{
    mnemonic == b".word".as_slice()
        || mnemonic == b".zero".as_slice()
        || form_named(mnemonic).is_some()
}

// What a statement with a colon in it gives.
fn after_colon<'a>(part: &[u8]) -> Line<'a>
    ensures { line_view result ≡ left_colon part.now }
{
    let text = trim_start(part);
    if is_known(&text[..mnemonic_len(text)]) {
        Line::BadOperand
    } else {
        Line::Unknown
    }
}

// What a line gives, by its content without the labels.
fn of_content(text: &[u8]) -> Line<'_>
    ensures { line_view result ≡ of_parts (colon_parts text.now) }
{
    let (part, rest) = cut(text, b':');
    match rest {
        None => statement(trim_start(part)),
        Some(_) => after_colon(part),
    }
}

// Whether a text may have all these bytes.
fn all_good(line: &[u8]) -> bool
    ensures { result ≡ list_all is_good_byte_of line.now }
{
    line.iter().all(|c| is_good_byte(*c))
}

// Whether a text may have this byte.
fn is_good_byte(c: u8) -> bool
    ensures { result ≡ is_good_byte_of c }
{
    (c >= 32 && c <= 126) || c == b'\t' || c == b'\r'
}

/// The length of what stands before the first byte that no text may have.
pub fn good_len(line: &[u8]) -> usize
    ensures value { result ≡ prefix_len is_good_byte_of line.now }
    ensures within { result ≤ length line.now }
{
    for (index, c) in line.iter().enumerate() {
        if !is_good_byte(*c) {
            return index;
        }
    }
    line.len()
}

/// What a line gives, without its LF: `BadByte` where a byte of it, of its comment too, is neither printable ASCII nor a
/// tab or CR; else the words of its statement, or the fault that the statement has. Its labels are passed over: they are
/// read by `next_label`.
#[tactic(auto, unfolding(crate::specs::Line::line_meaning))]
pub fn read_line(line: &[u8]) -> Line<'_>
    ensures { line_view result ≡ meaning_of line.now }
{
    if all_good(line) {
        of_content(after_labels(content(line)))
    } else {
        Line::BadByte
    }
}

/// The content of a line before a bad byte.
pub fn label_text(line: &[u8]) -> &[u8]
    ensures { result.now ≡ content_of (take (prefix_len is_good_byte_of line.now) line.now) }
{
    content(&line[..good_len(line)])
}
