// The code of typed expressions. Where memory is wanting, a part of an expression's code may stand behind what stood before.

ghost use Rattle.std.specs.Prelude.{◌≡◌, ℕ, ◌+◌, ◌≤◌, ◌∷◌, [], true, IfOk, Some};
ghost use Rattle.mips_table.specs.Encoding.{InRange};
ghost use Rattle.mips_table.specs.declared.inst.Inst.TheVariants.{Subu, Xori};
ghost use Rattle.c0_typed.specs.declared.sorted.Plain.TheVariants.{Sum};
ghost use Rattle.c0_typed.specs.Size.{typed_need};
ghost use Rattle.c0_typed.specs.Sorted.{plain_of};
ghost use Rattle.c0_typed.specs.View.{typed_expr_view};
ghost use Rattle.c0_expr_code.specs.Code.{AddressingMode, immediate, access_code, is_never_zero as never_zero, null_test};
ghost use Rattle.c0_expr_code.specs.Code.{one_code, operand_code, operand_register, to_code};
ghost use Rattle.c0_expr_code.specs.Emit.{Appends, IsSameAddress, access_inst, held_code, is_immediate, logic_skip, right_code};
ghost use Rattle.c0_expr_code.specs.EmitNode.{held_node, logic_nodes, plain_nodes, quotient_nodes, side_node, sides_nodes, target_node, tested_node};
ghost use Rattle.c0_expr_code.specs.Node.{plain_node};
ghost use Rattle.c0_expr_code.specs.SettingIn.{node_in, setting_in};

use crate::address::{Access, Address, emit_access};
use crate::constant::emit_constant;
use crate::element::{emit_element, emit_guard};
use crate::known::{known_word, local_address, register_standing};
use crate::operator::{emit_division, emit_operator, emit_with_constant, takes_constant};
use crate::patching::patch;
use crate::register::Register;
use crate::setting::CodeSetting;
use crate::word::emit;
use c0_typed::{Elements, Plain, TypedExpr};
use masm::registers::GLOBALS;
use mips_table::Inst;
use std::alloc::AllocError;

// Whether a known word is other than 0.
fn is_never_zero(known: Option<u32>) -> bool
    ensures { result ≡ never_zero known }
{
    match known {
        Some(word) => word != 0,
        None => false,
    }
}

// The branch over the right side of `||`, or else of `&&`, which leads nowhere yet.
fn skip(is_or: bool, register: Register) -> Inst
    ensures value { result ≡ logic_skip is_or register 0 }
    ensures range { InRange result }
{
    if is_or {
        Inst::Bne {
            rs: register.number(),
            rt: 0,
            imm: 0,
        }
    } else {
        Inst::Beq {
            rs: register.number(),
            rt: 0,
            imm: 0,
        }
    }
}

// Appends a copy of a register, unless it is that register.
fn emit_to(code: &mut Vec<u32>, target: Register, source: Register) -> Result<(), AllocError>
    ensures { Appends code.old.items code.new.items (to_code target source) result }
{
    if target.number() == source.number() {
        return Ok(());
    }
    emit(
        code,
        Inst::Addu {
            rd: target.number(),
            rs: source.number(),
            rt: 0,
        },
    )
}

/// Appends the code of an operand, with free registers from `free` to 19, and answers the register where it stands: `free` itself, or where it stands
/// with no code.
#[cycle(node)]
pub fn emit_operand(
    setting: &CodeSetting,
    expr: &TypedExpr,
    free: u32,
    code: &mut Vec<u32>,
) -> Result<Register, AllocError>
    requires { free + typed_need (typed_expr_view expr.now) ≤ 20 }
    ensures code { Appends code.old.items code.new.items (operand_code (node_in setting.now expr.now) free) result }
    ensures register { IfOk result (λ q. q ≡ operand_register (node_in setting.now expr.now) free) }
{
    if let Some(register) = register_standing(setting, expr) {
        return Ok(register);
    }
    let register = Register::new(free);
    emit_value(setting, expr, register, free, code)?;
    Ok(register)
}

/// Appends the code of a place, with free registers from `free` to 19, and answers where the place is then; no code and no place where the
/// expression is none.
#[cycle(node)]
pub fn emit_place(
    setting: &CodeSetting,
    expr: &TypedExpr,
    free: u32,
    code: &mut Vec<u32>,
) -> Result<Address, AllocError>
    requires { free + typed_need (typed_expr_view expr.now) ≤ 20 }
    ensures code { Appends code.old.items code.new.items ((node_in setting.now expr.now).place free).code result }
    ensures place { IfOk result (λ x. IsSameAddress x ((node_in setting.now expr.now).place free)) }
{
    match expr {
        TypedExpr::Global(bytes) => Ok(Address {
            base: Register::new(GLOBALS),
            displacement: *bytes,
        }),
        TypedExpr::Local(_, words) => Ok(local_address(setting, *words)),
        TypedExpr::Part(place, bytes) => {
            let address = emit_place(setting, place, free, code)?;
            Ok(address.moved(*bytes))
        }
        TypedExpr::Element(place, index, elements) => {
            emit_indexed(setting, place, index, *elements, free, code)
        }
        TypedExpr::Target(pointer) => emit_target(setting, pointer, free, code),
        TypedExpr::Constant(_) => Ok(Address::none()),
        TypedExpr::Address(_) => Ok(Address::none()),
        TypedExpr::Negative(_) => Ok(Address::none()),
        TypedExpr::Negation(_) => Ok(Address::none()),
        TypedExpr::Plain(_, _, _) => Ok(Address::none()),
        TypedExpr::Quotient(_, _) => Ok(Address::none()),
        TypedExpr::Remainder(_, _) => Ok(Address::none()),
        TypedExpr::Both(_, _) => Ok(Address::none()),
        TypedExpr::Either(_, _) => Ok(Address::none()),
    }
}

// Appends the test of a pointer, unless it surely isn't null.
fn emit_null_test(
    code: &mut Vec<u32>,
    setting: &CodeSetting,
    is_sure: bool,
    register: Register,
) -> Result<(), AllocError>
    ensures { Appends code.old.items code.new.items (null_test (setting_in setting.now).exit is_sure register) result }
{
    if is_sure {
        Ok(())
    } else {
        emit_guard(code, register, setting.exits.null_use)
    }
}

// Appends the code of what a pointer points to.
#[cycle(node)]
fn emit_target(
    setting: &CodeSetting,
    pointer: &TypedExpr,
    free: u32,
    code: &mut Vec<u32>,
) -> Result<Address, AllocError>
    requires { free + typed_need (typed_expr_view pointer.now) ≤ 20 }
    ensures code { Appends code.old.items code.new.items (target_node setting.now pointer.now free).code result }
    ensures place { IfOk result (λ x. IsSameAddress x (target_node setting.now pointer.now free)) }
{
    let base = emit_operand(setting, pointer, free, code)?;
    let is_sure = setting.facts.is_sure_pointer(pointer);
    emit_null_test(code, setting, is_sure, base)?;
    Ok(Address {
        base,
        displacement: 0,
    })
}

// Appends the code of an element whose index is tested.
#[cycle(node)]
fn emit_indexed(
    setting: &CodeSetting,
    place: &TypedExpr,
    index: &TypedExpr,
    elements: Elements,
    free: u32,
    code: &mut Vec<u32>,
) -> Result<Address, AllocError>
    requires first { free + typed_need (typed_expr_view place.now) ≤ 20 }
    requires second { free + 1 + typed_need (typed_expr_view index.now) ≤ 20 }
    ensures code { Appends code.old.items code.new.items (tested_node setting.now elements place.now index.now free).code result }
    ensures place { IfOk result (λ x. IsSameAddress x (tested_node setting.now elements place.now index.now free)) }
{
    let address = emit_place(setting, place, free, code)?;
    let register = emit_operand(setting, index, free + 1, code)?;
    let target = Register::new(free);
    emit_element(code, setting, target, address.base, register, elements)?;
    Ok(Address {
        base: target,
        displacement: address.displacement,
    })
}

/// Appends the code of a value, into register `target`, with free registers from `free` to 19.
#[cycle(node)]
pub fn emit_value(
    setting: &CodeSetting,
    expr: &TypedExpr,
    target: Register,
    free: u32,
    code: &mut Vec<u32>,
) -> Result<(), AllocError>
    requires room { free + typed_need (typed_expr_view expr.now) ≤ 20 }
    ensures { Appends code.old.items code.new.items ((node_in setting.now expr.now).value target free) result }
{
    match expr {
        TypedExpr::Global(_) => emit_held(setting, expr, Access::Load, target, free, code),
        TypedExpr::Local(_, _) => emit_local(setting, expr, target, free, code),
        TypedExpr::Part(_, _) => emit_held(setting, expr, Access::Load, target, free, code),
        TypedExpr::Element(_, _, _) => emit_held(setting, expr, Access::Load, target, free, code),
        TypedExpr::Target(_) => emit_held(setting, expr, Access::Load, target, free, code),
        TypedExpr::Constant(word) => emit_constant(code, target, *word),
        TypedExpr::Address(place) => {
            emit_held(setting, place, Access::Address, target, free, code)
        }
        TypedExpr::Negative(operand) => emit_negative(setting, operand, target, free, code),
        TypedExpr::Negation(operand) => emit_negation(setting, operand, target, free, code),
        TypedExpr::Plain(op, left, right) => {
            emit_plain(setting, *op, left, right, target, free, code)
        }
        TypedExpr::Quotient(left, right) => {
            emit_quotient(setting, true, left, right, target, free, code)
        }
        TypedExpr::Remainder(left, right) => {
            emit_quotient(setting, false, left, right, target, free, code)
        }
        TypedExpr::Both(left, right) => {
            emit_logic(setting, false, left, right, target, free, code)
        }
        TypedExpr::Either(left, right) => {
            emit_logic(setting, true, left, right, target, free, code)
        }
    }
}

// Appends the code of a place, and then an access to it.
#[cycle(node)]
fn emit_held(
    setting: &CodeSetting,
    expr: &TypedExpr,
    access: Access,
    target: Register,
    free: u32,
    code: &mut Vec<u32>,
) -> Result<(), AllocError>
    requires room { free + typed_need (typed_expr_view expr.now) ≤ 20 }
    ensures { Appends code.old.items code.new.items (access_code (access_inst access target) free ((node_in setting.now expr.now).place free)) result }
{
    let address = emit_place(setting, expr, free, code)?;
    emit_access(code, access, target, Register::new(free), address)
}

// Appends a copy of a variable's register, also of one to itself where variables stand in registers alone.
fn emit_copy(
    code: &mut Vec<u32>,
    setting: &CodeSetting,
    target: Register,
    source: Register,
) -> Result<(), AllocError>
    ensures { (x : AddressingMode) (r : ℕ) → Appends code.old.items code.new.items (held_code setting.now.in_registers (Some source) x target r) result }
{
    if setting.in_registers {
        emit(
            code,
            Inst::Addu {
                rd: target.number(),
                rs: source.number(),
                rt: 0,
            },
        )
    } else {
        emit_to(code, target, source)
    }
}

// Appends the code of a parameter or local as value.
#[cycle(node)]
fn emit_local(
    setting: &CodeSetting,
    expr: &TypedExpr,
    target: Register,
    free: u32,
    code: &mut Vec<u32>,
) -> Result<(), AllocError>
    requires room { free + typed_need (typed_expr_view expr.now) ≤ 20 }
    ensures { Appends code.old.items code.new.items (held_node setting.now expr.now target free) result }
{
    if let Some(source) = register_standing(setting, expr) {
        return emit_copy(code, setting, target, source);
    }
    emit_held(setting, expr, Access::Load, target, free, code)
}

// Appends the code of `-`.
#[cycle(node)]
fn emit_negative(
    setting: &CodeSetting,
    operand: &TypedExpr,
    target: Register,
    free: u32,
    code: &mut Vec<u32>,
) -> Result<(), AllocError>
    requires room { free + typed_need (typed_expr_view operand.now) ≤ 20 }
    ensures { Appends code.old.items code.new.items (one_code (λ q. Subu target 0 q ∷ []) (node_in setting.now operand.now) free) result }
{
    let source = emit_operand(setting, operand, free, code)?;
    emit(
        code,
        Inst::Subu {
            rd: target.number(),
            rs: 0,
            rt: source.number(),
        },
    )
}

// Appends the code of `!`.
#[cycle(node)]
fn emit_negation(
    setting: &CodeSetting,
    operand: &TypedExpr,
    target: Register,
    free: u32,
    code: &mut Vec<u32>,
) -> Result<(), AllocError>
    requires room { free + typed_need (typed_expr_view operand.now) ≤ 20 }
    ensures { Appends code.old.items code.new.items (one_code (λ q. Xori target q 1 ∷ []) (node_in setting.now operand.now) free) result }
{
    let source = emit_operand(setting, operand, free, code)?;
    emit(
        code,
        Inst::Xori {
            rt: target.number(),
            rs: source.number(),
            imm: 1,
        },
    )
}

// Appends the code of an operand, and of an operator between it and a constant.
#[cycle(node)]
fn emit_constant_side(
    setting: &CodeSetting,
    op: Plain,
    side: &TypedExpr,
    word: u32,
    target: Register,
    free: u32,
    code: &mut Vec<u32>,
) -> Result<(), AllocError>
    requires room { free + typed_need (typed_expr_view side.now) ≤ 20 }
    requires takes { is_immediate (immediate (plain_of op) word) ≡ true }
    ensures { Appends code.old.items code.new.items (side_node setting.now (immediate (plain_of op) word) side.now target free) result }
{
    let source = emit_operand(setting, side, free, code)?;
    emit_with_constant(code, op, target, source, word)
}

// Appends the code of both operands, and of an operator between them.
#[cycle(node)]
fn emit_both_sides(
    setting: &CodeSetting,
    op: Plain,
    left: &TypedExpr,
    right: &TypedExpr,
    target: Register,
    free: u32,
    code: &mut Vec<u32>,
) -> Result<(), AllocError>
    requires first { free + typed_need (typed_expr_view left.now) ≤ 20 }
    requires second { free + 1 + typed_need (typed_expr_view right.now) ≤ 20 }
    ensures { Appends code.old.items code.new.items (sides_nodes setting.now (plain_of op) left.now right.now target free) result }
{
    let first = emit_operand(setting, left, free, code)?;
    let second = emit_operand(setting, right, free + 1, code)?;
    emit_operator(code, op, target, first, second)
}

// Appends the code of an operator whose right side may be a constant.
#[cycle(node)]
fn emit_right_constant(
    setting: &CodeSetting,
    op: Plain,
    left: &TypedExpr,
    right: &TypedExpr,
    target: Register,
    free: u32,
    code: &mut Vec<u32>,
) -> Result<(), AllocError>
    requires first { free + typed_need (typed_expr_view left.now) ≤ 20 }
    requires second { free + 1 + typed_need (typed_expr_view right.now) ≤ 20 }
    ensures { Appends code.old.items code.new.items ((plain_nodes setting.now (plain_of op) left.now right.now).value target free) result }
{
    if let Some(word) = known_word(right) {
        if takes_constant(op, word) {
            return emit_constant_side(setting, op, left, word, target, free, code);
        }
    }
    emit_both_sides(setting, op, left, right, target, free, code)
}

// Appends the code of a sum, of which either side may be a constant.
#[cycle(node)]
fn emit_addition(
    setting: &CodeSetting,
    left: &TypedExpr,
    right: &TypedExpr,
    target: Register,
    free: u32,
    code: &mut Vec<u32>,
) -> Result<(), AllocError>
    requires first { free + typed_need (typed_expr_view left.now) ≤ 20 }
    requires second { free + 1 + typed_need (typed_expr_view right.now) ≤ 20 }
    ensures { Appends code.old.items code.new.items ((plain_node Sum (node_in setting.now left.now) (node_in setting.now right.now)).value target free) result }
{
    if let Some(word) = known_word(right) {
        if takes_constant(Plain::Sum, word) {
            return emit_constant_side(setting, Plain::Sum, left, word, target, free, code);
        }
    }
    if let Some(word) = known_word(left) {
        if takes_constant(Plain::Sum, word) {
            return emit_constant_side(setting, Plain::Sum, right, word, target, free, code);
        }
    }
    emit_both_sides(setting, Plain::Sum, left, right, target, free, code)
}

// Appends the code of an operator on two registers.
#[cycle(node)]
fn emit_plain(
    setting: &CodeSetting,
    op: Plain,
    left: &TypedExpr,
    right: &TypedExpr,
    target: Register,
    free: u32,
    code: &mut Vec<u32>,
) -> Result<(), AllocError>
    requires first { free + typed_need (typed_expr_view left.now) ≤ 20 }
    requires second { free + 1 + typed_need (typed_expr_view right.now) ≤ 20 }
    ensures { Appends code.old.items code.new.items ((plain_node op (node_in setting.now left.now) (node_in setting.now right.now)).value target free) result }
{
    match op {
        Plain::Sum => emit_addition(setting, left, right, target, free, code),
        Plain::Difference => emit_right_constant(setting, op, left, right, target, free, code),
        Plain::Product => emit_right_constant(setting, op, left, right, target, free, code),
        Plain::Order(_) => emit_right_constant(setting, op, left, right, target, free, code),
        Plain::Equal => emit_right_constant(setting, op, left, right, target, free, code),
        Plain::Different => emit_right_constant(setting, op, left, right, target, free, code),
    }
}

// Appends the code of `/`, or else of `%`.
#[cycle(node)]
fn emit_quotient(
    setting: &CodeSetting,
    is_quotient: bool,
    left: &TypedExpr,
    right: &TypedExpr,
    target: Register,
    free: u32,
    code: &mut Vec<u32>,
) -> Result<(), AllocError>
    requires first { free + typed_need (typed_expr_view left.now) ≤ 20 }
    requires second { free + 1 + typed_need (typed_expr_view right.now) ≤ 20 }
    ensures { Appends code.old.items code.new.items (quotient_nodes setting.now is_quotient left.now right.now target free) result }
{
    let first = emit_operand(setting, left, free, code)?;
    let second = emit_operand(setting, right, free + 1, code)?;
    let untested = is_never_zero(known_word(right));
    emit_division(code, setting, is_quotient, untested, target, first, second)
}

// Appends the branch over the right side of `||`, or else of `&&`, and that side; the branch gets its distance when the side is there.
#[cycle(node)]
fn emit_right(
    setting: &CodeSetting,
    is_or: bool,
    right: &TypedExpr,
    free: u32,
    code: &mut Vec<u32>,
) -> Result<(), AllocError>
    requires { free + typed_need (typed_expr_view right.now) ≤ 20 }
    ensures { Appends code.old.items code.new.items (right_code is_or free ((node_in setting.now right.now).value free free)) result }
{
    let at = code.len();
    let register = Register::new(free);
    emit(code, skip(is_or, register))?;
    emit_value(setting, right, register, free, code)?;
    let end = code.len();
    patch(code, at, end);
    Ok(())
}

// Appends the code of `||`, or else of `&&`.
#[cycle(node)]
fn emit_logic(
    setting: &CodeSetting,
    is_or: bool,
    left: &TypedExpr,
    right: &TypedExpr,
    target: Register,
    free: u32,
    code: &mut Vec<u32>,
) -> Result<(), AllocError>
    requires first { free + typed_need (typed_expr_view left.now) ≤ 20 }
    requires second { free + typed_need (typed_expr_view right.now) ≤ 20 }
    ensures { Appends code.old.items code.new.items (logic_nodes setting.now is_or left.now right.now target free) result }
{
    let register = Register::new(free);
    emit_value(setting, left, register, free, code)?;
    let behind = setting.told(left, !is_or);
    emit_right(&behind, is_or, right, free, code)?;
    emit_to(code, target, register)
}
