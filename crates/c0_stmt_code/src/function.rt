// The code of functions.

ghost use Rattle.std.specs.Prelude.{◌≡◌, ◌≤◌, IsTrue, OnErr};
ghost use Rattle.masm.specs.CodeAddresses.{AreCodeAddresses};
ghost use Rattle.c0_meaning.specs.Asm.{are_allowed_words};
ghost use Rattle.c0_typed.specs.Size.{typed_need};
ghost use Rattle.c0_typed.specs.View.{typed_body_view, typed_expr_view, typed_function_view, typed_stmts_view};
ghost use Rattle.c0_expr_code.specs.Emit.{Appends};
ghost use Rattle.c0_expr_code.specs.SettingIn.{setting_in};
ghost use Rattle.c0_stmt_code.specs.Code.{asm_function};
ghost use Rattle.c0_stmt_code.specs.Emit.{body_in, function_in, typed_function_at};
ghost use Rattle.c0_stmt_code.specs.TypedFunction.{CanEmit, CanEmitBody, FitRegisters, HasFrame, typed_return};

use crate::behind::facts_behind_all;
use crate::prologue::{emit_entry, emit_exit, emit_stack_test};
use crate::statement::emit_statements;
use c0_asm_body::{emit_arguments, emit_asm};
use c0_expr_code::{CodeSetting, Facts, Register, emit, emit_value};
use c0_typed::{TypedBody, TypedCode, TypedExpr, TypedFunction};
use masm::registers::{ANSWER, CodeAddresses, EXPRESSIONS, RETURN, SCRATCH};
use mips_table::Inst;
use std::alloc::{AllocError, Global};

// Appends the code of the answer, which goes to register 2, and the return.
fn emit_return(
    setting: &CodeSetting,
    calling: bool,
    answer: &TypedExpr,
    code: &mut Vec<u32>,
) -> Result<(), AllocError>
    requires { typed_need (typed_expr_view answer.now) ≤ 12 }
    ensures { Appends code.old.items code.new.items (typed_return (setting_in setting.now) calling (typed_expr_view answer.now)) result }
{
    emit_value(setting, answer, Register::new(ANSWER), EXPRESSIONS, code)?;
    emit_exit(setting, calling, code)
}

// Appends the code of a function with statements; `calling` tells whether they change the return register.
fn emit_code(
    alloc: Global,
    setting: &CodeSetting,
    addresses: &CodeAddresses,
    params: u32,
    calling: bool,
    body: &TypedCode,
    code: &mut Vec<u32>,
) -> Result<(), AllocError>
    requires addresses { AreCodeAddresses addresses.now }
    requires frame { HasFrame params setting.now.frame body.now.locals.items }
    requires stmts { FitRegisters (typed_stmts_view body.now.stmts.items) }
    requires answer { typed_need (typed_expr_view body.now.answer) ≤ 12 }
    ensures { Appends code.old.items code.new.items (function_in setting.now addresses.now params calling body.now) result }
{
    emit_entry(setting, params, body, calling, code)?;
    emit_statements(alloc, setting, addresses, &body.stmts, code)?;
    let facts = facts_behind_all(setting.in_registers, &body.stmts, setting.facts);
    emit_return(&setting.with(facts), calling, &body.answer, code)
}

// Appends the code of a function with an asm body.
fn emit_asm_function(
    alloc: Global,
    setting: &CodeSetting,
    params: u32,
    words: &[u32],
    code: &mut Vec<u32>,
) -> Result<(), AllocError>
    requires few { params ≤ 4 }
    requires allowed { IsTrue (are_allowed_words words.now) }
    ensures { Appends code.old.items code.new.items (asm_function (setting_in setting.now) params words.now) result }
{
    emit_stack_test(setting, Register::new(SCRATCH), code)?;
    emit_arguments(alloc, params, code)?;
    emit_asm(alloc, words, code)?;
    emit(code, Inst::Jr { rs: RETURN })
}

// Appends the code of a function, by its body.
fn emit_body(
    alloc: Global,
    setting: &CodeSetting,
    addresses: &CodeAddresses,
    params: u32,
    calling: bool,
    body: &TypedBody,
    code: &mut Vec<u32>,
) -> Result<(), AllocError>
    requires addresses { AreCodeAddresses addresses.now }
    requires body { CanEmitBody params setting.now.frame (typed_body_view body.now) }
    ensures { Appends code.old.items code.new.items (body_in setting.now addresses.now params calling body.now) result }
{
    match body {
        TypedBody::Code(stmts) => {
            emit_code(alloc, setting, addresses, params, calling, stmts, code)
        }
        TypedBody::Asm(words) => emit_asm_function(alloc, setting, params, words, code),
    }
}

// Appends the code of a function; want of memory may leave a part of it.
fn emit_whole(
    alloc: Global,
    addresses: &CodeAddresses,
    function: &TypedFunction,
    code: &mut Vec<u32>,
) -> Result<(), AllocError>
    requires addresses { AreCodeAddresses addresses.now }
    requires function { CanEmit (typed_function_view function.now) }
    ensures { Appends code.old.items code.new.items (typed_function_at addresses.now (typed_function_view function.now)) result }
{
    let facts = Facts::at_start(function.in_registers, function.params);
    let setting = CodeSetting::new(function.in_registers, function.frame, addresses, facts);
    emit_body(
        alloc,
        &setting,
        addresses,
        function.params,
        function.calling,
        &function.body,
        code,
    )
}

/// Appends the code of a function that fits the registers (`CanEmit`), where the addresses of what it names are these.
///
/// Want of memory leaves `code` as it was.
pub fn emit_function(
    alloc: Global,
    addresses: &CodeAddresses,
    function: &TypedFunction,
    code: &mut Vec<u32>,
) -> Result<(), AllocError>
    requires addresses { AreCodeAddresses addresses.now }
    requires function { CanEmit (typed_function_view function.now) }
    ensures appended { Appends code.old.items code.new.items (typed_function_at addresses.now (typed_function_view function.now)) result }
    ensures unchanged { OnErr result (code.new.items ≡ code.old.items) }
{
    let mut own = Vec::new(alloc);
    emit_whole(alloc, addresses, function, &mut own)?;
    code.extend_from_slice(&own)
}
