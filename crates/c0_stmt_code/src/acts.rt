// Statements that hold no others: assignments, calls and `new`.

ghost use Rattle.std.specs.Prelude.{◌≡◌, ◌+◌, ◌/◌, ◌^◌, ◌<◌, ◌≤◌, map, slice_index};
ghost use Rattle.std.specs.List.{All};
ghost use Rattle.masm.specs.CodeAddresses.{AreCodeAddresses, IsJumpTarget};
ghost use Rattle.c0_typed.specs.Size.{typed_need};
ghost use Rattle.c0_typed.specs.View.{typed_expr_view};
ghost use Rattle.c0_expr_code.specs.Code.{access_code};
ghost use Rattle.c0_expr_code.specs.Emit.{Appends, access_inst};
ghost use Rattle.c0_expr_code.specs.Facts as spec;
ghost use Rattle.c0_expr_code.specs.SettingIn.{node_in, setting_in};
ghost use Rattle.c0_expr_code.specs.declared.address.Access.TheVariants.{Store};
ghost use Rattle.c0_stmt_code.specs.Code.{callee_index, links_of};
ghost use Rattle.c0_stmt_code.specs.Emit.{call_in, new_in};
ghost use Rattle.c0_stmt_code.specs.TypedCode.{typed_answer, typed_args, typed_assign};

use crate::prologue::register_behind;
use c0_expr_code::{
    Access, CodeSetting, Facts, Register, emit, emit_access, emit_constant, emit_operand,
    emit_place, emit_value, register_place,
};
use c0_tree::Kind;
use c0_typed::TypedExpr;
use masm::registers::{ANSWER, CodeAddresses, EXPRESSIONS};
use mips_table::Inst;
use std::alloc::AllocError;

// The jump index of the address of a number; 0 where there is none.
fn index_at(addresses: &[u32], number: u32) -> u32
    requires { All IsJumpTarget addresses.now }
    ensures value { result ≡ slice_index addresses.now number / 4 }
    ensures small { result < 2 ^ 26 }
{
    addresses.get(number as usize).copied().unwrap_or(0) / 4
}

// The jump index of what is called; 0 where there is none.
fn index_of(addresses: &CodeAddresses, kind: Kind, number: u32) -> u32
    requires { AreCodeAddresses addresses.now }
    ensures value { result ≡ callee_index (links_of addresses.now) kind number }
    ensures small { result < 2 ^ 26 }
{
    match kind {
        Kind::Unresolved => 0,
        Kind::Struct => 0,
        Kind::Field => 0,
        Kind::Global => 0,
        Kind::Local => 0,
        Kind::Function => index_at(&addresses.functions, number),
        Kind::Primitive => index_at(&addresses.primitives, number),
    }
}

// Appends the code of a place, and a register's store there.
fn emit_stored(
    setting: &CodeSetting,
    register: Register,
    free: u32,
    place: &TypedExpr,
    code: &mut Vec<u32>,
) -> Result<(), AllocError>
    requires room { free + typed_need (typed_expr_view place.now) ≤ 20 }
    ensures { Appends code.old.items code.new.items (access_code (access_inst Store register) free ((node_in setting.now place.now).place free)) result }
{
    let address = emit_place(setting, place, free, code)?;
    emit_access(code, Access::Store, register, Register::new(free), address)
}

// Appends the code that takes an answer to its place.
fn emit_answer(
    setting: &CodeSetting,
    place: &TypedExpr,
    code: &mut Vec<u32>,
) -> Result<(), AllocError>
    requires { typed_need (typed_expr_view place.now) ≤ 12 }
    ensures { Appends code.old.items code.new.items (typed_answer (setting_in setting.now) (typed_expr_view place.now)) result }
{
    if let Some(target) = register_place(setting, place) {
        return emit(
            code,
            Inst::Addu {
                rd: target.number(),
                rs: ANSWER,
                rt: 0,
            },
        );
    }
    emit_stored(setting, Register::new(ANSWER), EXPRESSIONS, place, code)
}

/// Appends the code of an assignment.
pub fn emit_assign(
    setting: &CodeSetting,
    place: &TypedExpr,
    value: &TypedExpr,
    code: &mut Vec<u32>,
) -> Result<(), AllocError>
    requires value { typed_need (typed_expr_view value.now) ≤ 12 }
    requires place { typed_need (typed_expr_view place.now) ≤ 11 }
    ensures { Appends code.old.items code.new.items (typed_assign (setting_in setting.now) (typed_expr_view place.now) (typed_expr_view value.now)) result }
{
    if let Some(target) = register_place(setting, place) {
        return emit_value(setting, value, target, EXPRESSIONS, code);
    }
    let register = emit_operand(setting, value, EXPRESSIONS, code)?;
    emit_stored(setting, register, EXPRESSIONS + 1, place, code)
}

// Once the argument of a number went to its register.
fn overwritten(facts: Facts, i: usize) -> Facts
    ensures { result ≡ spec.overwritten facts i }
{
    if i < 8 {
        facts.overwritten(i as u32)
    } else {
        facts
    }
}

// Appends the code that takes arguments to their registers.
fn emit_args(
    setting: &CodeSetting,
    args: &[TypedExpr],
    code: &mut Vec<u32>,
) -> Result<(), AllocError>
    requires { All (λ x. typed_need (typed_expr_view x) ≤ 12) args.now }
    ensures { Appends code.old.items code.new.items (typed_args (setting_in setting.now) (map typed_expr_view args.now) 0) result }
{
    let mut here = *setting;
    for (i, arg) in args.iter().enumerate() {
        let register = register_behind(0, i as u64);
        emit_value(&here, arg, register, EXPRESSIONS, code)?;
        here = here.with(overwritten(here.facts, i));
    }
    Ok(())
}

/// Appends the code of a call of the function or primitive of a number, whose answer goes to a place.
pub fn emit_call(
    setting: &CodeSetting,
    addresses: &CodeAddresses,
    kind: Kind,
    number: u32,
    args: &[TypedExpr],
    place: &TypedExpr,
    code: &mut Vec<u32>,
) -> Result<(), AllocError>
    requires addresses { AreCodeAddresses addresses.now }
    requires args { All (λ x. typed_need (typed_expr_view x) ≤ 12) args.now }
    requires place { typed_need (typed_expr_view place.now) ≤ 12 }
    ensures { Appends code.old.items code.new.items (call_in setting.now addresses.now kind number args.now place.now) result }
{
    emit_args(setting, args, code)?;
    emit(
        code,
        Inst::Jal {
            index: index_of(addresses, kind, number),
        },
    )?;
    let behind = setting.with(setting.facts.called());
    emit_answer(&behind, place, code)
}

/// Appends the code of `new` of so many words, whose object's address goes to a place.
pub fn emit_new(
    setting: &CodeSetting,
    addresses: &CodeAddresses,
    words: u32,
    place: &TypedExpr,
    code: &mut Vec<u32>,
) -> Result<(), AllocError>
    requires addresses { AreCodeAddresses addresses.now }
    requires place { typed_need (typed_expr_view place.now) ≤ 12 }
    ensures { Appends code.old.items code.new.items (new_in setting.now addresses.now words place.now) result }
{
    emit_constant(code, Register::new(ANSWER), words)?;
    emit(
        code,
        Inst::Jal {
            index: addresses.new_object / 4,
        },
    )?;
    let behind = setting.with(setting.facts.renewed());
    emit_answer(&behind, place, code)
}
