// How functions begin and return.

ghost use Rattle.std.specs.Prelude.{◌≡◌, ◌+◌, ◌*◌, ◌%◌, ◌^◌, ◌<◌, ◌∷◌, [], length, if◌then◌else◌};
ghost use Rattle.mips_table.specs.declared.inst.Inst.TheVariants.{Addiu, Beq, Bne, J, Sltu, Sw};
ghost use Rattle.c0_meaning.specs.Operators.{StackOut};
ghost use Rattle.c0_expr_code.specs.Code as expressions;
ghost use Rattle.c0_expr_code.specs.Code.{access_code};
ghost use Rattle.c0_expr_code.specs.Emit.{Appends, access_inst};
ghost use Rattle.c0_expr_code.specs.SettingIn.{setting_in};
ghost use Rattle.c0_stmt_code.specs.Code.{clear_code, clear_one, end_code, exit_code, frame_entry, frame_return, frame_slot, large_code, locals_code};
ghost use Rattle.c0_stmt_code.specs.Code.{params_code, register_return, stack_test, zero_code, zeros_code, zeros_loop};
ghost use Rattle.c0_stmt_code.specs.Emit.{cleared_in, entry_in, kept_code, register_entry_in};
ghost use Rattle.c0_stmt_code.specs.TypedFunction.{HasFrame};

use crate::live::is_cleared;
use c0_expr_code::{Access, Address, CodeSetting, Register, emit, emit_access, frame_bytes};
use c0_typed::TypedCode;
use masm::registers::{ANSWER, ARGUMENTS, FRAME_END, RETURN, SCRATCH, STACK_END};
use mips_table::Inst;
use std::alloc::AllocError;

// The words of the largest stack.
const LARGEST_STACK: u64 = 262_144;

// The words of a function's locals that are set to 0 by a store each; more are in a loop.
const FEW_WORDS: u64 = 8;

// Appends the access to a word of the frame.
fn emit_word(
    setting: &CodeSetting,
    access: Access,
    register: Register,
    free: Register,
    word: u64,
    code: &mut Vec<u32>,
) -> Result<(), AllocError>
    ensures { Appends code.old.items code.new.items (access_code (access_inst access register) free (frame_slot (setting_in setting.now) word)) result }
{
    let address = Address {
        base: Register::new(FRAME_END),
        displacement: frame_bytes(setting, word),
    };
    emit_access(code, access, register, free, address)
}

// A number of words as bytes, modulo 2^32.
fn bytes(words: u64) -> u32
    ensures { result ≡ 4 * words % 2 ^ 32 }
{
    (words % 0x4000_0000) as u32 * 4
}

// Appends the code that brings the end of the next frame into a register.
fn emit_end(setting: &CodeSetting, target: Register, code: &mut Vec<u32>) -> Result<(), AllocError>
    ensures { Appends code.old.items code.new.items (end_code target (4 * (setting_in setting.now).frame)) result }
{
    let address = Address {
        base: Register::new(FRAME_END),
        displacement: bytes(setting.frame),
    };
    emit_access(code, Access::Address, target, target, address)
}

// Appends a jump to the exit of a want of stack, where no stack has room for the frame.
fn emit_large(setting: &CodeSetting, code: &mut Vec<u32>) -> Result<(), AllocError>
    ensures { Appends code.old.items code.new.items (large_code (setting_in setting.now)) result }
{
    if LARGEST_STACK < setting.frame {
        return emit(
            code,
            Inst::J {
                index: setting.exits.stack / 4,
            },
        );
    }
    Ok(())
}

// Appends a jump to the exit of a want of stack, and a branch over it where a register is not behind the stack's end.
fn emit_limit(setting: &CodeSetting, end: Register, code: &mut Vec<u32>) -> Result<(), AllocError>
    ensures { Appends code.old.items code.new.items (Sltu SCRATCH STACK_END end ∷ Beq SCRATCH 0 1 ∷ J ((setting_in setting.now).exit StackOut) ∷ []) result }
{
    emit(
        code,
        Inst::Sltu {
            rd: SCRATCH,
            rs: STACK_END,
            rt: end.number(),
        },
    )?;
    emit(
        code,
        Inst::Beq {
            rs: SCRATCH,
            rt: 0,
            imm: 1,
        },
    )?;
    emit(
        code,
        Inst::J {
            index: setting.exits.stack / 4,
        },
    )
}

/// Appends the test of the stack, which brings the end of the new frame into a register.
pub fn emit_stack_test(
    setting: &CodeSetting,
    register: Register,
    code: &mut Vec<u32>,
) -> Result<(), AllocError>
    ensures { Appends code.old.items code.new.items (stack_test (setting_in setting.now) register) result }
{
    emit_large(setting, code)?;
    emit_end(setting, register, code)?;
    emit_limit(setting, register, code)
}

// Appends the access to the frame's first word, which keeps the return address where something is called.
fn emit_kept(
    setting: &CodeSetting,
    access: Access,
    calling: bool,
    code: &mut Vec<u32>,
) -> Result<(), AllocError>
    ensures { Appends code.old.items code.new.items (kept_code (setting_in setting.now) access calling) result }
{
    if calling {
        return emit_word(
            setting,
            access,
            Register::new(RETURN),
            Register::new(SCRATCH),
            0,
            code,
        );
    }
    Ok(())
}

/// The register of the variable or argument so many behind another.
pub fn register_behind(first: u32, i: u64) -> Register
    ensures { result ≡ expressions.register_of_variable (first + i) }
{
    Register::new((ARGUMENTS + first % 32 + (i % 32) as u32) % 32)
}

// Appends the stores of the arguments to the frame.
fn emit_params(setting: &CodeSetting, count: u32, code: &mut Vec<u32>) -> Result<(), AllocError>
    ensures { Appends code.old.items code.new.items (params_code (setting_in setting.now) count 0) result }
{
    for i in 0..count {
        let register = register_behind(i, 0);
        emit_word(
            setting,
            Access::Store,
            register,
            Register::new(SCRATCH),
            3 + u64::from(i),
            code,
        )?;
    }
    Ok(())
}

// Appends the store of 0 to the word of a variable's number, where that is asked.
fn emit_zero(
    setting: &CodeSetting,
    cleared: bool,
    variable: u64,
    code: &mut Vec<u32>,
) -> Result<(), AllocError>
    requires { 3 + variable < 2 ^ 64 }
    ensures { Appends code.old.items code.new.items (zero_code (setting_in setting.now) cleared variable) result }
{
    if cleared {
        return emit_word(
            setting,
            Access::Store,
            Register::new(0),
            Register::new(SCRATCH),
            3 + variable,
            code,
        );
    }
    Ok(())
}

// Appends stores of 0 to the words of variables that are to be cleared.
fn emit_zeros(
    setting: &CodeSetting,
    body: &TypedCode,
    count: u64,
    first: u64,
    code: &mut Vec<u32>,
) -> Result<(), AllocError>
    requires { 3 + first + count < 2 ^ 64 }
    ensures { Appends code.old.items code.new.items (zeros_code (setting_in setting.now) (cleared_in body.now) count first) result }
{
    for i in 0..count {
        let cleared = is_cleared(body, first + i);
        emit_zero(setting, cleared, first + i, code)?;
    }
    Ok(())
}

// Appends a loop that stores 0 from the word of a variable's number to the frame's end.
fn emit_zeros_loop(setting: &CodeSetting, first: u64, code: &mut Vec<u32>) -> Result<(), AllocError>
    requires { 3 + first < 2 ^ 64 }
    ensures { Appends code.old.items code.new.items (zeros_loop (setting_in setting.now) first) result }
{
    let answer = Register::new(ANSWER);
    emit_word(setting, Access::Address, answer, answer, 3 + first, code)?;
    emit_turns(code)
}

// Appends the turns of that loop, whose branch leads back to the store.
fn emit_turns(code: &mut Vec<u32>) -> Result<(), AllocError>
    ensures { Appends code.old.items code.new.items (Sw 0 ANSWER 0 ∷ Addiu ANSWER ANSWER 4 ∷ Bne ANSWER FRAME_END 65533 ∷ []) result }
{
    emit(
        code,
        Inst::Sw {
            rt: 0,
            rs: ANSWER,
            imm: 0,
        },
    )?;
    emit(
        code,
        Inst::Addiu {
            rt: ANSWER,
            rs: ANSWER,
            imm: 4,
        },
    )?;
    emit(
        code,
        Inst::Bne {
            rs: ANSWER,
            rt: FRAME_END,
            imm: 65533,
        },
    )
}

// Appends the code that sets the words of locals to 0.
fn emit_locals(
    setting: &CodeSetting,
    body: &TypedCode,
    count: u64,
    first: u64,
    code: &mut Vec<u32>,
) -> Result<(), AllocError>
    requires { 3 + first + count < 2 ^ 64 }
    ensures { Appends code.old.items code.new.items (locals_code (setting_in setting.now) (cleared_in body.now) count first) result }
{
    if count <= FEW_WORDS {
        return emit_zeros(setting, body, count, first, code);
    }
    emit_zeros_loop(setting, first, code)
}

// Appends the instruction that sets the register of the variable so many behind another to 0, where that is asked.
fn emit_clear_one(cleared: bool, first: u32, i: u64, code: &mut Vec<u32>) -> Result<(), AllocError>
    ensures { Appends code.old.items code.new.items (clear_one cleared (first + i)) result }
{
    if cleared {
        return emit(
            code,
            Inst::Addu {
                rd: register_behind(first, i).number(),
                rs: 0,
                rt: 0,
            },
        );
    }
    Ok(())
}

// Appends the code that sets the registers of variables to 0 that are to be cleared.
fn emit_clear(body: &TypedCode, first: u32, code: &mut Vec<u32>) -> Result<(), AllocError>
    ensures { Appends code.old.items code.new.items (clear_code (cleared_in body.now) (length body.now.locals.items) first) result }
{
    for i in 0..body.locals.len() {
        let cleared = is_cleared(body, u64::from(first) + i as u64);
        emit_clear_one(cleared, first, i as u64, code)?;
    }
    Ok(())
}

// Appends the access to the word behind the caller's frame, which keeps the return address where something is called.
fn emit_kept_behind(access: Access, calling: bool, code: &mut Vec<u32>) -> Result<(), AllocError>
    ensures { Appends code.old.items code.new.items (if calling then access_inst access RETURN FRAME_END 0 ∷ [] else []) result }
{
    if calling {
        let address = Address {
            base: Register::new(FRAME_END),
            displacement: 0,
        };
        return emit_access(
            code,
            access,
            Register::new(RETURN),
            Register::new(SCRATCH),
            address,
        );
    }
    Ok(())
}

// Appends the begin of a function that has a frame.
fn emit_frame_entry(
    setting: &CodeSetting,
    body: &TypedCode,
    params: u32,
    words: u64,
    calling: bool,
    code: &mut Vec<u32>,
) -> Result<(), AllocError>
    requires { 3 + params + words < 2 ^ 64 }
    ensures { Appends code.old.items code.new.items (frame_entry (setting_in setting.now) (cleared_in body.now) params words calling) result }
{
    emit_stack_test(setting, Register::new(FRAME_END), code)?;
    emit_kept(setting, Access::Store, calling, code)?;
    emit_params(setting, params, code)?;
    emit_locals(setting, body, words, u64::from(params), code)
}

// Appends the begin of a function whose variables stand in registers.
fn emit_register_entry(
    setting: &CodeSetting,
    params: u32,
    body: &TypedCode,
    calling: bool,
    code: &mut Vec<u32>,
) -> Result<(), AllocError>
    ensures { Appends code.old.items code.new.items (register_entry_in setting.now body.now params calling) result }
{
    emit_stack_test(setting, Register::new(SCRATCH), code)?;
    emit_kept_behind(Access::Store, calling, code)?;
    emit_clear(body, params, code)
}

/// Appends the begin of a function that has statements; `calling` tells whether they change the return register.
pub fn emit_entry(
    setting: &CodeSetting,
    params: u32,
    body: &TypedCode,
    calling: bool,
    code: &mut Vec<u32>,
) -> Result<(), AllocError>
    requires { HasFrame params setting.now.frame body.now.locals.items }
    ensures { Appends code.old.items code.new.items (entry_in setting.now body.now params calling) result }
{
    if setting.in_registers {
        return emit_register_entry(setting, params, body, calling, code);
    }
    let words = setting.frame - 3 - u64::from(params);
    emit_frame_entry(setting, body, params, words, calling, code)
}

// Appends the return from a function that has a frame.
fn emit_frame_return(
    setting: &CodeSetting,
    calling: bool,
    code: &mut Vec<u32>,
) -> Result<(), AllocError>
    ensures { Appends code.old.items code.new.items (frame_return (setting_in setting.now) calling) result }
{
    emit_kept(setting, Access::Load, calling, code)?;
    let end = Register::new(FRAME_END);
    emit_word(setting, Access::Address, end, end, 0, code)?;
    emit(code, Inst::Jr { rs: RETURN })
}

// Appends the return from a function whose variables stand in registers.
fn emit_register_return(calling: bool, code: &mut Vec<u32>) -> Result<(), AllocError>
    ensures { Appends code.old.items code.new.items (register_return calling) result }
{
    emit_kept_behind(Access::Load, calling, code)?;
    emit(code, Inst::Jr { rs: RETURN })
}

/// Appends the return from a function, whose answer is in register 2.
pub fn emit_exit(
    setting: &CodeSetting,
    calling: bool,
    code: &mut Vec<u32>,
) -> Result<(), AllocError>
    ensures { Appends code.old.items code.new.items (exit_code (setting_in setting.now) calling) result }
{
    if setting.in_registers {
        return emit_register_return(calling, code);
    }
    emit_frame_return(setting, calling, code)
}
