// Reading of operands.

ghost use Rattle.std.specs.Prelude.{◌≡◌, ◌≤◌, ◌<◌, ◌^◌, ◌*◌, length, option_map, IfSome};
ghost use Rattle.mips_asm.specs.Operand.{reading as reading_of, numbered as numbered_of, register as register_of};
ghost use Rattle.mips_asm.specs.Operand.{signed_operand as signed_of, unsigned as unsigned_of};
ghost use Rattle.mips_asm.specs.Operand.{with_base as with_base_of, memory as memory_of, len_before as len_before_of, in_parentheses as inside_of};
ghost use Rattle.mips_asm.specs.Operand.{first_bit as first_bit_of};
ghost use Rattle.mips_asm.specs.View.{reading_view, text_view};

use crate::form::{Field, Operand};
use crate::number::{decimal_number, is_name, number};
use cvm_text::trim;

/// What the text of an operand says.
#[derive(Clone, Copy)]
pub enum Reading<'a> {
    /// A number to add to the word.
    Adds(u32),
    /// A value out of the operand's range.
    Out(i64),
    /// A label to branch to.
    BranchLabel(&'a [u8]),
    /// A label to jump to.
    JumpLabel(&'a [u8]),
}

// Where a register's field begins in the word.
fn first_bit(field: Field) -> u32
    ensures value { result ≡ first_bit_of field }
    ensures small { result ≤ 21 }
{
    match field {
        Field::Rs => 21,
        Field::Rt => 16,
        Field::Rd => 11,
    }
}

// A letter and the number of a register below a limit.
fn numbered(letter: u8, limit: u32, text: &[u8]) -> Option<u32>
    requires { 0 < letter }
    ensures value { result ≡ numbered_of letter limit text.now }
    ensures small { IfSome result (λ r. r < limit) }
{
    if !text.is_empty() && text[0] == letter {
        let r = decimal_number(&text[1..])?;
        if r < u64::from(limit) {
            return Some(r as u32);
        }
    }
    None
}

/// The bits of a number of 16 bits with a sign.
pub fn signed<'a>(value: i64) -> Reading<'a>
    ensures { reading_view result ≡ signed_of value }
{
    if value >= -32768 && value <= 32767 {
        Reading::Adds(u32::from((value as i16).cast_unsigned()))
    } else {
        Reading::Out(value)
    }
}

// A number below a limit, in its field.
fn unsigned<'a>(limit: u32, position: u32, value: i64) -> Reading<'a>
    requires position { position < 32 }
    requires fits { limit * 2 ^ position ≤ 2 ^ 32 }
    ensures { reading_view result ≡ unsigned_of limit position value }
{
    if value >= 0 && value < i64::from(limit) {
        Reading::Adds((value as u32) << position)
    } else {
        Reading::Out(value)
    }
}

/// The length of what stands before the first byte of a kind.
pub fn len_before(byte: u8, text: &[u8]) -> usize
    ensures value { result ≡ len_before_of byte text.now }
    ensures within { result ≤ length text.now }
{
    for (index, c) in text.iter().enumerate() {
        if *c == byte {
            return index;
        }
    }
    text.len()
}

// A text in parentheses.
fn inside(text: &[u8]) -> Option<&[u8]>
    ensures { option_map text_view result ≡ inside_of text.now }
{
    if text.len() >= 2 && text[text.len() - 1] == b')' {
        Some(&text[1..text.len() - 1])
    } else {
        None
    }
}

// A number and the register in parentheses after it.
fn with_base<'a>(offset: i64, base: u32) -> Reading<'a>
    requires { base < 32 }
    ensures { Some (reading_view result) ≡ with_base_of (Some offset) (Some base) }
{
    match signed(offset) {
        Reading::Adds(bits) => Reading::Adds(bits + (base << 21)),
        reading => reading,
    }
}

// A number and a register in parentheses.
fn memory(text: &[u8]) -> Option<Reading<'_>>
    ensures { option_map reading_view result ≡ memory_of text.now }
{
    let len = len_before(b'(', text);
    let offset = number(trim(&text[..len]))?;
    let base = numbered(b'r', 32, trim(inside(&text[len..])?))?;
    Some(with_base(offset, base))
}

/// What the text of an operand says, if it has the operand's form.
pub fn read_operand<'a>(operand: Operand, text: &'a [u8]) -> Option<Reading<'a>>
    ensures { option_map reading_view result ≡ reading_of operand text.now }
{
    match operand {
        Operand::Register(field) => Some(Reading::Adds(
            numbered(b'r', 32, text)? << first_bit(field),
        )),
        Operand::Special => Some(Reading::Adds(numbered(b'c', 9, text)? << 11)),
        Operand::Amount => Some(unsigned(32, 6, number(text)?)),
        Operand::Code => Some(unsigned(1 << 20, 6, number(text)?)),
        Operand::Signed => Some(signed(number(text)?)),
        Operand::Unsigned => Some(unsigned(1 << 16, 0, number(text)?)),
        Operand::Branch if is_name(text) => Some(Reading::BranchLabel(text)),
        Operand::Branch => Some(signed(number(text)?)),
        Operand::Jump if is_name(text) => Some(Reading::JumpLabel(text)),
        Operand::Jump => Some(unsigned(1 << 26, 0, number(text)?)),
        Operand::Memory => memory(text),
    }
}
