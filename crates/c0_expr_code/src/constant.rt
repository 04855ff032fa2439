// Constants.

ghost use Rattle.std.specs.Prelude.{◌≡◌, ◌/◌, ◌%◌, ◌^◌, ◌<◌, ◌∷◌, [], OnErr};
ghost use Rattle.mips_table.specs.declared.inst.Inst.TheVariants.{Lui, Ori};
ghost use Rattle.c0_expr_code.specs.Code.{constant_code};
ghost use Rattle.c0_expr_code.specs.Emit.{Appends};

use crate::register::Register;
use crate::word::{emit, is_near, low};
use mips_table::{Inst, encode};
use std::alloc::AllocError;

/// Appends the code that brings a word into the register `target`.
///
/// Want of memory leaves `code` as it was.
pub fn emit_constant(code: &mut Vec<u32>, target: Register, word: u32) -> Result<(), AllocError>
    ensures appended { Appends code.old.items code.new.items (constant_code target word) result }
    ensures unchanged { OnErr result (code.new.items ≡ code.old.items) }
{
    if word < 0x1_0000 {
        emit(
            code,
            Inst::Ori {
                rt: target.number(),
                rs: 0,
                imm: word,
            },
        )
    } else if is_near(word) {
        emit(
            code,
            Inst::Addiu {
                rt: target.number(),
                rs: 0,
                imm: low(word),
            },
        )
    } else {
        emit_halves(code, target, word)
    }
}

// The two halves of a word.
fn emit_halves(code: &mut Vec<u32>, target: Register, word: u32) -> Result<(), AllocError>
    ensures appended { Appends code.old.items code.new.items (Lui target (word / 2 ^ 16) ∷ Ori target target (word % 2 ^ 16) ∷ []) result }
    ensures unchanged { OnErr result (code.new.items ≡ code.old.items) }
{
    let upper = Inst::Lui {
        rt: target.number(),
        imm: word / 0x1_0000,
    };
    let lower = Inst::Ori {
        rt: target.number(),
        rs: target.number(),
        imm: low(word),
    };
    code.extend_from_slice(&[encode(&upper), encode(&lower)])
}
