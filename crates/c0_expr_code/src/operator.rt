// Operators between registers and constants.

ghost use Rattle.std.specs.Prelude.{◌≡◌, ◌∷◌, [], ◌^◌, ◌<◌, true};
ghost use Rattle.mips_table.specs.declared.inst.Inst.TheVariants.{Addiu, Mflo, Mult, Slt, Slti, Xor, Xori};
ghost use Rattle.mips_table.specs.Encoding.{InRange};
ghost use Rattle.c0_typed.specs.Sorted.{order_of, plain_of};
ghost use Rattle.c0_expr_code.specs.Code.{immediate, operator_code, low as lower};
ghost use Rattle.c0_expr_code.specs.Emit.{Appends, code_with, equality_code, is_immediate, taken_inst, zero_test};
ghost use Rattle.c0_expr_code.specs.EmitNode.{quotient_code};
ghost use Rattle.c0_expr_code.specs.Node.{divisor_test};
ghost use Rattle.c0_expr_code.specs.SettingIn.{setting_in};

use crate::element::emit_guard;
use crate::register::Register;
use crate::setting::CodeSetting;
use crate::word::{emit, is_near, low};
use c0_typed::{Order, Plain};
use mips_table::Inst;
use std::alloc::AllocError;

// The instruction that puts into a register whether another is 0, or whether it isn't.
fn zero_test_of(is_equal: bool, target: Register, source: Register) -> Inst
    ensures value { result ≡ zero_test is_equal target source }
    ensures range { InRange result }
{
    if is_equal {
        Inst::Sltiu {
            rt: target.number(),
            rs: source.number(),
            imm: 1,
        }
    } else {
        Inst::Sltu {
            rd: target.number(),
            rs: 0,
            rt: source.number(),
        }
    }
}

// Appends the sum of a register and a constant.
fn emit_sum(
    code: &mut Vec<u32>,
    target: Register,
    left: Register,
    word: u32,
) -> Result<(), AllocError>
    ensures { Appends code.old.items code.new.items (Addiu target left (lower word) ∷ []) result }
{
    emit(
        code,
        Inst::Addiu {
            rt: target.number(),
            rs: left.number(),
            imm: low(word),
        },
    )
}

/// Appends whether a register is below a constant.
pub fn emit_below(
    code: &mut Vec<u32>,
    target: Register,
    left: Register,
    word: u32,
) -> Result<(), AllocError>
    ensures { Appends code.old.items code.new.items (Slti target left (lower word) ∷ []) result }
{
    emit(
        code,
        Inst::Slti {
            rt: target.number(),
            rs: left.number(),
            imm: low(word),
        },
    )
}

// Appends whether a register isn't below a constant.
fn emit_not_below(
    code: &mut Vec<u32>,
    target: Register,
    left: Register,
    word: u32,
) -> Result<(), AllocError>
    ensures { Appends code.old.items code.new.items (Slti target left (lower word) ∷ Xori target target 1 ∷ []) result }
{
    emit_below(code, target, left, word)?;
    emit(
        code,
        Inst::Xori {
            rt: target.number(),
            rs: target.number(),
            imm: 1,
        },
    )
}

// Appends whether a register is a constant, or whether it isn't.
fn emit_equality_with(
    code: &mut Vec<u32>,
    is_equal: bool,
    target: Register,
    left: Register,
    word: u32,
) -> Result<(), AllocError>
    requires word { word < 2 ^ 16 }
    ensures { Appends code.old.items code.new.items (equality_code is_equal word target left) result }
{
    if word == 0 {
        return emit(code, zero_test_of(is_equal, target, left));
    }
    emit(
        code,
        Inst::Xori {
            rt: target.number(),
            rs: left.number(),
            imm: word,
        },
    )?;
    emit(code, zero_test_of(is_equal, target, target))
}

// Whether an order has an instruction with room for a constant on its right side.
fn order_takes_constant(order: Order, word: u32) -> bool
    ensures { result ≡ is_immediate (immediate (order_of order) word) }
{
    match order {
        Order::Less => is_near(word),
        Order::LessOrEqual => is_near(word.wrapping_add(1)),
        Order::Greater => false,
        Order::GreaterOrEqual => is_near(word),
    }
}

/// Whether an operator has an instruction with room for a constant on its right side.
pub fn takes_constant(op: Plain, word: u32) -> bool
    ensures { result ≡ is_immediate (immediate (plain_of op) word) }
{
    match op {
        Plain::Sum => is_near(word),
        Plain::Difference => is_near(word.wrapping_neg()),
        Plain::Product => false,
        Plain::Order(order) => order_takes_constant(order, word),
        Plain::Equal => word < 0x1_0000,
        Plain::Different => word < 0x1_0000,
    }
}

// Appends an order between a register and a constant that it takes.
fn emit_order_with_constant(
    code: &mut Vec<u32>,
    order: Order,
    target: Register,
    left: Register,
    word: u32,
) -> Result<(), AllocError>
    requires takes { is_immediate (immediate (order_of order) word) ≡ true }
    ensures { Appends code.old.items code.new.items (code_with (immediate (order_of order) word) target left) result }
{
    match order {
        Order::Less => emit_below(code, target, left, word),
        Order::LessOrEqual => emit_below(code, target, left, word.wrapping_add(1)),
        Order::Greater => unreachable!(),
        Order::GreaterOrEqual => emit_not_below(code, target, left, word),
    }
}

/// Appends an operator between a register and a constant that it takes.
pub fn emit_with_constant(
    code: &mut Vec<u32>,
    op: Plain,
    target: Register,
    left: Register,
    word: u32,
) -> Result<(), AllocError>
    requires takes { is_immediate (immediate (plain_of op) word) ≡ true }
    ensures { Appends code.old.items code.new.items (code_with (immediate (plain_of op) word) target left) result }
{
    match op {
        Plain::Sum => emit_sum(code, target, left, word),
        Plain::Difference => emit_sum(code, target, left, word.wrapping_neg()),
        Plain::Product => unreachable!(),
        Plain::Order(order) => emit_order_with_constant(code, order, target, left, word),
        Plain::Equal => emit_equality_with(code, true, target, left, word),
        Plain::Different => emit_equality_with(code, false, target, left, word),
    }
}

/// Whether one register is below another.
pub fn less(target: Register, left: Register, right: Register) -> Inst
    ensures value { result ≡ Slt target left right }
    ensures range { InRange result }
{
    Inst::Slt {
        rd: target.number(),
        rs: left.number(),
        rt: right.number(),
    }
}

// Appends whether one register isn't below another.
fn emit_not_less(
    code: &mut Vec<u32>,
    target: Register,
    left: Register,
    right: Register,
) -> Result<(), AllocError>
    ensures { Appends code.old.items code.new.items (Slt target left right ∷ Xori target target 1 ∷ []) result }
{
    emit(code, less(target, left, right))?;
    emit(
        code,
        Inst::Xori {
            rt: target.number(),
            rs: target.number(),
            imm: 1,
        },
    )
}

// Appends whether two registers are equal, or whether they differ.
fn emit_equality(
    code: &mut Vec<u32>,
    is_equal: bool,
    target: Register,
    left: Register,
    right: Register,
) -> Result<(), AllocError>
    ensures { Appends code.old.items code.new.items (Xor target left right ∷ zero_test is_equal target target ∷ []) result }
{
    emit(
        code,
        Inst::Xor {
            rd: target.number(),
            rs: left.number(),
            rt: right.number(),
        },
    )?;
    emit(code, zero_test_of(is_equal, target, target))
}

// Appends a product.
fn emit_product(
    code: &mut Vec<u32>,
    target: Register,
    left: Register,
    right: Register,
) -> Result<(), AllocError>
    ensures { Appends code.old.items code.new.items (Mult left right ∷ Mflo target ∷ []) result }
{
    emit(
        code,
        Inst::Mult {
            rs: left.number(),
            rt: right.number(),
        },
    )?;
    emit(
        code,
        Inst::Mflo {
            rd: target.number(),
        },
    )
}

// Appends an order between two registers.
fn emit_order(
    code: &mut Vec<u32>,
    order: Order,
    target: Register,
    left: Register,
    right: Register,
) -> Result<(), AllocError>
    ensures { Appends code.old.items code.new.items (operator_code (order_of order) target left right) result }
{
    match order {
        Order::Less => emit(code, less(target, left, right)),
        Order::LessOrEqual => emit_not_less(code, target, right, left),
        Order::Greater => emit(code, less(target, right, left)),
        Order::GreaterOrEqual => emit_not_less(code, target, left, right),
    }
}

/// Appends an operator between two registers.
pub fn emit_operator(
    code: &mut Vec<u32>,
    op: Plain,
    target: Register,
    left: Register,
    right: Register,
) -> Result<(), AllocError>
    ensures { Appends code.old.items code.new.items (operator_code (plain_of op) target left right) result }
{
    match op {
        Plain::Sum => emit(
            code,
            Inst::Addu {
                rd: target.number(),
                rs: left.number(),
                rt: right.number(),
            },
        ),
        Plain::Difference => emit(
            code,
            Inst::Subu {
                rd: target.number(),
                rs: left.number(),
                rt: right.number(),
            },
        ),
        Plain::Product => emit_product(code, target, left, right),
        Plain::Order(order) => emit_order(code, order, target, left, right),
        Plain::Equal => emit_equality(code, true, target, left, right),
        Plain::Different => emit_equality(code, false, target, left, right),
    }
}

// What is taken of a division.
fn taken(is_quotient: bool, target: Register) -> Inst
    ensures value { result ≡ taken_inst is_quotient target }
    ensures range { InRange result }
{
    if is_quotient {
        Inst::Mflo {
            rd: target.number(),
        }
    } else {
        Inst::Mfhi {
            rd: target.number(),
        }
    }
}

// Appends the test of a divisor, unless it is known to be other than 0.
fn emit_divisor(
    code: &mut Vec<u32>,
    setting: &CodeSetting,
    untested: bool,
    divisor: Register,
) -> Result<(), AllocError>
    ensures { Appends code.old.items code.new.items (divisor_test (setting_in setting.now) untested divisor) result }
{
    if untested {
        Ok(())
    } else {
        emit_guard(code, divisor, setting.exits.zero_division)
    }
}

/// Appends `/`, or else `%`, between two registers, with the test of the right one unless it is known to be other than 0.
pub fn emit_division(
    code: &mut Vec<u32>,
    setting: &CodeSetting,
    is_quotient: bool,
    untested: bool,
    target: Register,
    left: Register,
    right: Register,
) -> Result<(), AllocError>
    ensures { Appends code.old.items code.new.items (quotient_code (setting_in setting.now) is_quotient untested target left right) result }
{
    emit_divisor(code, setting, untested, right)?;
    emit(
        code,
        Inst::Div {
            rs: left.number(),
            rt: right.number(),
        },
    )?;
    emit(code, taken(is_quotient, target))
}
