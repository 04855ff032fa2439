// Elements of arrays.

ghost use Rattle.std.specs.Prelude.{◌≡◌, ◌/◌, ◌^◌, ◌<◌, ◌∷◌, [], IfSome};
ghost use Rattle.mips_table.specs.declared.inst.Inst.TheVariants.{Bne, J};
ghost use Rattle.c0_expr_code.specs.Code.{bound_code, shift_within, POWERS};
ghost use Rattle.c0_expr_code.specs.Emit.{Appends, scaled_at};
ghost use Rattle.c0_expr_code.specs.Node.{element_test};
ghost use Rattle.c0_expr_code.specs.SettingIn.{setting_in};

use crate::constant::emit_constant;
use crate::register::Register;
use crate::setting::CodeSetting;
use crate::word::emit;
use c0_typed::Elements;
use masm::registers::SCRATCH;
use mips_table::Inst;
use std::alloc::AllocError;

// The shift that multiplies by the bytes of so many words, where the words are a power of two up to 1,024.
fn shift_of(words: u32) -> Option<u32>
    ensures value { result ≡ shift_within POWERS words }
    ensures small { IfSome result (λ by. by < 32) }
{
    match words {
        1 => Some(2),
        2 => Some(3),
        4 => Some(4),
        8 => Some(5),
        16 => Some(6),
        32 => Some(7),
        64 => Some(8),
        128 => Some(9),
        256 => Some(10),
        512 => Some(11),
        1024 => Some(12),
        _ => None,
    }
}

// Appends whether an index is below a length, into the scratch register.
fn emit_bound(code: &mut Vec<u32>, index: Register, count: u32) -> Result<(), AllocError>
    ensures { Appends code.old.items code.new.items (bound_code index count) result }
{
    if count < 0x8000 {
        return emit(
            code,
            Inst::Sltiu {
                rt: SCRATCH,
                rs: index.number(),
                imm: count,
            },
        );
    }
    emit_constant(code, Register::new(SCRATCH), count)?;
    emit(
        code,
        Inst::Sltu {
            rd: SCRATCH,
            rs: index.number(),
            rt: SCRATCH,
        },
    )
}

// Appends a word in a register times the bytes of an element, into the scratch register.
fn emit_scaled(code: &mut Vec<u32>, index: Register, elements: Elements) -> Result<(), AllocError>
    ensures { Appends code.old.items code.new.items (scaled_at (shift_within POWERS elements.words) elements.bytes index) result }
{
    if let Some(by) = shift_of(elements.words) {
        return emit(
            code,
            Inst::Sll {
                rd: SCRATCH,
                rt: index.number(),
                sa: by,
            },
        );
    }
    emit_constant(code, Register::new(SCRATCH), elements.bytes)?;
    emit(
        code,
        Inst::Mult {
            rs: index.number(),
            rt: SCRATCH,
        },
    )?;
    emit(code, Inst::Mflo { rd: SCRATCH })
}

/// Appends a jump to an exit, and a branch over it where a register isn't 0.
pub fn emit_guard(code: &mut Vec<u32>, register: Register, exit: u32) -> Result<(), AllocError>
    requires exit { exit < 2 ^ 28 }
    ensures { Appends code.old.items code.new.items (Bne register 0 1 ∷ J (exit / 4) ∷ []) result }
{
    emit(
        code,
        Inst::Bne {
            rs: register.number(),
            rt: 0,
            imm: 1,
        },
    )?;
    emit(code, Inst::J { index: exit / 4 })
}

/// Appends the test of an index, and the sum of a base and the bytes before its element, into a register.
pub fn emit_element(
    code: &mut Vec<u32>,
    setting: &CodeSetting,
    target: Register,
    base: Register,
    index: Register,
    elements: Elements,
) -> Result<(), AllocError>
    ensures { Appends code.old.items code.new.items (element_test (setting_in setting.now) elements index base target) result }
{
    emit_bound(code, index, elements.count)?;
    emit_guard(code, Register::new(SCRATCH), setting.exits.bounds)?;
    emit_scaled(code, index, elements)?;
    emit(
        code,
        Inst::Addu {
            rd: target.number(),
            rs: base.number(),
            rt: SCRATCH,
        },
    )
}
