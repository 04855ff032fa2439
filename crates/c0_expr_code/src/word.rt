// Words of code.

ghost use Rattle.std.specs.Prelude.{◌≡◌, ◌%◌, ◌^◌, ◌<◌, ◌++◌, ◌∷◌, [], OnErr, OnOk};
ghost use Rattle.mips_table.specs.Encoding.{InRange, encoding};
ghost use Rattle.c0_expr_code.specs.Code as spec;

use mips_table::{Inst, encode};
use std::alloc::AllocError;

/// Appends the word of an instruction.
///
/// Want of memory leaves `code` as it was.
pub fn emit(code: &mut Vec<u32>, inst: Inst) -> Result<(), AllocError>
    requires { InRange inst }
    ensures appended { OnOk result (code.new.items ≡ code.old.items ++ encoding inst ∷ []) }
    ensures unchanged { OnErr result (code.new.items ≡ code.old.items) }
{
    code.push(encode(&inst))?;
    Ok(())
}

/// A number modulo 2^32.
pub fn wrapped(number: u64) -> u32
    ensures { result ≡ number % 2 ^ 32 }
{
    (number % 0x1_0000_0000) as u32
}

/// The lower half of a word.
pub fn low(word: u32) -> u32
    ensures value { result ≡ spec.low word }
    ensures small { result < 2 ^ 16 }
{
    word % 0x1_0000
}

/// Whether a word is its lower half, extended by its sign.
pub fn is_near(word: u32) -> bool
    ensures { result ≡ spec.is_near word }
{
    word < 0x8000 || word >= 0xffff_8000
}
