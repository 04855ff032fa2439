// The code of statements. Where memory is wanting, a part of it may stand behind what stood before.

ghost use Rattle.std.specs.Prelude.{◌≡◌, ◌+◌, ◌^◌, ◌<◌, ◌≤◌};
ghost use Rattle.masm.specs.CodeAddresses.{AreCodeAddresses};
ghost use Rattle.c0_typed.specs.Size.{typed_need};
ghost use Rattle.c0_typed.specs.View.{typed_expr_view, typed_stmt_view, typed_stmts_view};
ghost use Rattle.c0_expr_code.specs.Emit.{Appends};
ghost use Rattle.c0_expr_code.specs.SettingIn.{setting_in};
ghost use Rattle.c0_stmt_code.specs.Code.{links_of};
ghost use Rattle.c0_stmt_code.specs.Emit.{choice_in, otherwise_in, skipped_code, typed_stmts_in, while_in};
ghost use Rattle.c0_stmt_code.specs.TypedCode.{typed_otherwise_at, typed_stmt_code};
ghost use Rattle.c0_stmt_code.specs.TypedFunction.{FitRegisters, FitsRegisters};

use crate::acts::{emit_assign, emit_call, emit_new};
use crate::behind::{all_changed, facts_behind};
use c0_expr_code::node_laws::node_patches_aim;
use c0_expr_code::{CodeSetting, emit, emit_test, patch, patch_all};
use c0_typed::{TypedExpr, TypedStmt};
use masm::registers::{CodeAddresses, EXPRESSIONS};
use mips_table::Inst;
use std::alloc::{AllocError, Global};

// Appends the code of a statement.
#[cycle(statement)]
fn emit_statement(
    alloc: Global,
    setting: &CodeSetting,
    addresses: &CodeAddresses,
    stmt: &TypedStmt,
    code: &mut Vec<u32>,
) -> Result<(), AllocError>
    requires addresses { AreCodeAddresses addresses.now }
    requires stmt { FitsRegisters (typed_stmt_view stmt.now) }
    ensures { Appends code.old.items code.new.items (typed_stmt_code (setting_in setting.now) (links_of addresses.now) (typed_stmt_view stmt.now)) result }
{
    match stmt {
        TypedStmt::Assign { place, value } => emit_assign(setting, place, value, code),
        TypedStmt::Call {
            kind,
            number,
            args,
            place,
        } => emit_call(setting, addresses, *kind, *number, args, place, code),
        TypedStmt::New { words, place } => emit_new(setting, addresses, *words, place, code),
        TypedStmt::If { test, yes, no } => emit_if(alloc, setting, addresses, test, yes, no, code),
        TypedStmt::While { test, body } => {
            let turning = setting.with(all_changed(body, setting.facts));
            emit_while(alloc, &turning, addresses, test, body, code)
        }
    }
}

/// Appends the code of statements one after another.
#[cycle(statement)]
pub fn emit_statements(
    alloc: Global,
    setting: &CodeSetting,
    addresses: &CodeAddresses,
    stmts: &[TypedStmt],
    code: &mut Vec<u32>,
) -> Result<(), AllocError>
    requires addresses { AreCodeAddresses addresses.now }
    requires stmts { FitRegisters (typed_stmts_view stmts.now) }
    ensures { Appends code.old.items code.new.items (typed_stmts_in setting.now addresses.now stmts.now) result }
{
    let mut here = *setting;
    for stmt in stmts {
        emit_statement(alloc, &here, addresses, stmt, code)?;
        here = here.with(facts_behind(here.in_registers, stmt, here.facts));
    }
    Ok(())
}

// Appends a jump over the code of statements, and that code.
#[cycle(statement)]
fn emit_skipped(
    alloc: Global,
    setting: &CodeSetting,
    addresses: &CodeAddresses,
    stmts: &[TypedStmt],
    code: &mut Vec<u32>,
) -> Result<(), AllocError>
    requires addresses { AreCodeAddresses addresses.now }
    requires stmts { FitRegisters (typed_stmts_view stmts.now) }
    ensures { Appends code.old.items code.new.items (skipped_code (typed_stmts_in setting.now addresses.now stmts.now)) result }
{
    let at = code.len();
    emit(
        code,
        Inst::Beq {
            rs: 0,
            rt: 0,
            imm: 0,
        },
    )?;
    emit_statements(alloc, setting, addresses, stmts, code)?;
    let end = code.len();
    patch(code, at, end);
    Ok(())
}

// Appends the code of the other branch of an `if`, and before it the jump over it; nothing where there is no other branch.
#[cycle(statement)]
fn emit_otherwise(
    alloc: Global,
    setting: &CodeSetting,
    addresses: &CodeAddresses,
    no: &[TypedStmt],
    code: &mut Vec<u32>,
) -> Result<(), AllocError>
    requires addresses { AreCodeAddresses addresses.now }
    requires no { FitRegisters (typed_stmts_view no.now) }
    ensures { Appends code.old.items code.new.items (otherwise_in setting.now addresses.now no.now) result }
{
    if no.is_empty() {
        return Ok(());
    }
    emit_skipped(alloc, setting, addresses, no, code)
}

// Where the other branch of an `if` begins whose first branch ends at a word: behind the jump over it, where there is another branch.
fn behind_jump(no: &[TypedStmt], end: usize) -> usize
    requires { end + typed_otherwise_at (typed_stmts_view no.now) < 2 ^ 64 }
    ensures { result ≡ end + typed_otherwise_at (typed_stmts_view no.now) }
{
    if no.is_empty() { end } else { end + 1 }
}

// Appends the code of an `if`: its test goes to the other branch, which begins behind the jump over it.
#[cycle(statement)]
fn emit_if(
    alloc: Global,
    setting: &CodeSetting,
    addresses: &CodeAddresses,
    test: &TypedExpr,
    yes: &[TypedStmt],
    no: &[TypedStmt],
    code: &mut Vec<u32>,
) -> Result<(), AllocError>
    requires addresses { AreCodeAddresses addresses.now }
    requires test { typed_need (typed_expr_view test.now) ≤ 12 }
    requires yes { FitRegisters (typed_stmts_view yes.now) }
    requires no { FitRegisters (typed_stmts_view no.now) }
    ensures { Appends code.old.items code.new.items (choice_in setting.now addresses.now test.now yes.now no.now) result }
{
    node_patches_aim();
    let mut jumps = Vec::new(alloc);
    emit_test(alloc, setting, test, false, EXPRESSIONS, code, &mut jumps)?;
    emit_statements(alloc, &setting.told(test, true), addresses, yes, code)?;
    let end = code.len();
    emit_otherwise(alloc, &setting.told(test, false), addresses, no, code)?;
    let to = behind_jump(no, end);
    patch_all(code, &jumps, to);
    Ok(())
}

// Appends the code of a loop, in the setting of its test, which stands behind the body, and goes back to it, or to the jump before it where
// there is no body.
#[cycle(statement)]
fn emit_while(
    alloc: Global,
    setting: &CodeSetting,
    addresses: &CodeAddresses,
    test: &TypedExpr,
    body: &[TypedStmt],
    code: &mut Vec<u32>,
) -> Result<(), AllocError>
    requires addresses { AreCodeAddresses addresses.now }
    requires test { typed_need (typed_expr_view test.now) ≤ 12 }
    requires body { FitRegisters (typed_stmts_view body.now) }
    ensures { Appends code.old.items code.new.items (while_in setting.now addresses.now test.now body.now) result }
{
    node_patches_aim();
    let start = code.len();
    emit_skipped(alloc, &setting.told(test, true), addresses, body, code)?;
    let end = code.len();
    let mut jumps = Vec::new(alloc);
    emit_test(alloc, setting, test, true, EXPRESSIONS, code, &mut jumps)?;
    let to = if start + 1 < end { start + 1 } else { start };
    patch_all(code, &jumps, to);
    Ok(())
}
