//! The emitters of an asm function's arguments and of its body.

ghost use Rattle.std.specs.Prelude.{◌≡◌, ◌++◌, ◌<◌, ◌≤◌, map, OnOk, OnErr, IsTrue};
ghost use Rattle.mips_table.specs.Encoding.{InRange, encoding};
ghost use Rattle.c0_meaning.specs.Asm.{are_allowed_words};
ghost use Rattle.c0_asm_body.specs.Code.{argument_code, arguments_code, asm_body_code};

use crate::laws::bodies_are_encoded;
use masm::Block;
use masm::registers::ARGUMENTS;
use mips_table::Inst;
use std::alloc::{AllocError, Global};
use std::vec::Vec;

/// Appends the words of an asm body, which are of instructions and registers that an asm body may have.
///
/// Want of memory leaves `code` as it was.
pub fn emit_asm(_alloc: Global, words: &[u32], code: &mut Vec<u32>) -> Result<(), AllocError>
    requires { IsTrue (are_allowed_words words.now) }
    ensures appended { OnOk result (code.new.items ≡ code.old.items ++ words.now) }
    ensures instructions { map encoding (asm_body_code words.now) ≡ words.now }
    ensures unchanged { OnErr result (code.new.items ≡ code.old.items) }
{
    bodies_are_encoded();
    code.extend_from_slice(words)
}

/// Appends the instructions that set the registers of an asm body, which has `count` arguments, 0 to 4.
///
/// Want of memory leaves `code` as it was.
pub fn emit_arguments(_alloc: Global, count: u32, code: &mut Vec<u32>) -> Result<(), AllocError>
    requires { count ≤ 4 }
    ensures appended { OnOk result (code.new.items ≡ code.old.items ++ map encoding (arguments_code count)) }
    ensures unchanged { OnErr result (code.new.items ≡ code.old.items) }
{
    let mut moves = Block::<6>::new();
    moves.push(Inst::Addu {
        rd: 2,
        rs: 0,
        rt: 0,
    });
    moves.push(Inst::Addu {
        rd: 3,
        rs: 0,
        rt: 0,
    });
    moves.push(argument(count, 0));
    moves.push(argument(count, 1));
    moves.push(argument(count, 2));
    moves.push(argument(count, 3));
    code.extend_from_slice(moves.words())
}

// The instruction that sets the register of argument `i`.
fn argument(count: u32, i: u32) -> Inst
    requires { i < 4 }
    ensures value { result ≡ argument_code count i }
    ensures range { InRange result }
{
    Inst::Addu {
        rd: 4 + i,
        rs: if i < count { ARGUMENTS + i } else { 0 },
        rt: 0,
    }
}
