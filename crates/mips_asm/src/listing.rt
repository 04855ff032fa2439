// Words to texts.

ghost use Rattle.std.specs.Prelude.{◌≡◌, ◌≤◌, ◌++◌, length, codes, decimal as decimal_of, OnOk, IfOk, Ok};
ghost use Rattle.mips_table.specs.Decoding.{decoding};
ghost use Rattle.mips_asm.specs.Assembled.{assembled};
ghost use Rattle.mips_asm.specs.Back.{ReadsBack};
ghost use Rattle.mips_asm.specs.Listing.{operands as operands_of, separator_at, operand_text, listed_operands, line_for, line_of, listing};

use crate::instruction_rows::rows;
use cvm_text::{decimal, decimal_u64, hex8};
use mips_table::{Inst, decode, mnemonic_of};
use std::alloc::{AllocError, Global};

/// An operand as a text has it.
#[derive(Clone, Copy)]
pub enum Written {
    /// The number of a register, 0 to 31.
    Register(u32),
    /// The number of a special register, 0 to 8.
    Special(u32),
    /// A number without a sign.
    Number(u32),
    /// The bits of a number with a sign.
    Signed(u32),
    /// The bits of a number with a sign, and the register in parentheses after it.
    Address(u32, u32),
}

use Written::{Address, Number, Register, Signed, Special};

// Appends a text.
fn put(out: &mut Vec<u8>, text: &[u8]) -> Result<(), AllocError>
    ensures { OnOk result (out.new.items ≡ out.old.items ++ text.now) }
{
    out.extend_from_slice(text)
}

// Appends a number.
fn put_number(out: &mut Vec<u8>, number: u32) -> Result<(), AllocError>
    ensures { OnOk result (out.new.items ≡ out.old.items ++ decimal_of number) }
{
    put(out, decimal_u64(u64::from(number)).as_str().as_bytes())
}

// Appends the number with a sign that 16 bits mean.
fn put_signed(out: &mut Vec<u8>, bits: u32) -> Result<(), AllocError>
    ensures { OnOk result (out.new.items ≡ out.old.items ++ operand_text (Written.Signed bits)) }
{
    let value = ((bits % 65536) as u16).cast_signed();
    put(out, decimal(i64::from(value)).as_str().as_bytes())
}

// Appends an operand.
fn put_operand(out: &mut Vec<u8>, operand: Written) -> Result<(), AllocError>
    ensures { OnOk result (out.new.items ≡ out.old.items ++ operand_text operand) }
{
    match operand {
        Register(number) => {
            put(out, b"r")?;
            put_number(out, number)
        }
        Special(number) => {
            put(out, b"c")?;
            put_number(out, number)
        }
        Number(number) => put_number(out, number),
        Signed(bits) => put_signed(out, bits),
        Address(bits, base) => {
            put_signed(out, bits)?;
            put(out, b"(r")?;
            put_number(out, base)?;
            put(out, b")")
        }
    }
}

// What stands before an operand.
fn separator(index: usize) -> &'static [u8]
    ensures { result.now ≡ separator_at index }
{
    if index == 0 { b" " } else { b", " }
}

// Appends the operands, with a blank before the first and a comma and a blank before each other.
fn put_operands(out: &mut Vec<u8>, operands: &[Written]) -> Result<(), AllocError>
    ensures { OnOk result (out.new.items ≡ out.old.items ++ listed_operands (codes " ") operands.now) }
{
    for (index, operand) in operands.iter().enumerate() {
        put(out, separator(index))?;
        put_operand(out, *operand)?;
    }
    Ok(())
}

macro_rules! operand_arms {
    (
        $input:expr, $out:expr,
        $($inst:ident $({ $($field:ident),* })?, $operands:ident, [$($written:expr),*] $(unless $absent:expr)?;)*
    ) => {
        match $input {
            $(Inst::$inst $({ $($field),* })? => {
                $(if $absent {
                    return Ok(());
                })?
                put_operands($out, &[$($written),*])
            })*
        }
    };
}

// Appends the operands of an instruction.
fn put_operands_of(out: &mut Vec<u8>, inst: &Inst) -> Result<(), AllocError>
    ensures { OnOk result (out.new.items ≡ out.old.items ++ listed_operands (codes " ") (operands_of inst.now)) }
{
    rows!(operand_arms, *inst, out)
}

// Appends the text of a word that is this instruction, or none.
fn put_statement(out: &mut Vec<u8>, word: u32, inst: Option<Inst>) -> Result<(), AllocError>
    ensures { OnOk result (out.new.items ≡ out.old.items ++ line_for word inst) }
{
    match inst {
        Some(inst) => {
            put(out, mnemonic_of(&inst).as_bytes())?;
            put_operands_of(out, &inst)
        }
        None => {
            put(out, b".word 0x")?;
            put(out, hex8(word).as_str().as_bytes())
        }
    }
}

// The instruction of a word. What is written for it reads back as the word.
fn instruction_of(word: u32) -> Option<Inst>
    ensures value { result ≡ decoding word }
    ensures back { ReadsBack word }
{
    decode(word)
}

// Appends the line of a word.
#[tactic(auto, unfolding(crate::specs::Listing::line_of))]
fn put_line(out: &mut Vec<u8>, word: u32) -> Result<(), AllocError>
    ensures line { OnOk result (out.new.items ≡ out.old.items ++ line_of word) }
    ensures back { ReadsBack word }
{
    put_statement(out, word, instruction_of(word))?;
    put(out, b"\n")
}

/// A text of these words, with a line for each: the instruction with its operands, numbers in decimal, and a word that is
/// no instruction as `.word` with eight hexadecimal digits. There are at most 65,536 words. `assemble` reads the text as
/// the same words.
pub fn disassemble(alloc: Global, words: &[u32]) -> Result<Vec<u8>, AllocError>
    requires { length words.now ≤ 65536 }
    ensures text { IfOk result (λ text. text.items ≡ listing words.now) }
    ensures back { IfOk result (λ text. assembled text.items ≡ Ok words.now) }
{
    let mut text = Vec::new(alloc);
    for word in words {
        put_line(&mut text, *word)?;
    }
    Ok(text)
}
