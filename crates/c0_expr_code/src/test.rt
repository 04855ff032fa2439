// Tests of typed expressions: code that branches where an expression is true, or where it is false, and else falls through. Where
// memory is wanting, a part of a test's code, and of the list of where its branches stand, may stand behind what stood before.

ghost use Rattle.std.specs.Prelude.{◌≡◌, ◌+◌, ◌-◌, ◌≤◌, ◌<◌, ◌∷◌, [], ◌++◌, length, true, OnOk};
ghost use Rattle.mips_table.specs.declared.inst.Inst.TheVariants.{Slt};
ghost use Rattle.mips_table.specs.Encoding.{InRange};
ghost use Rattle.masm.specs.declared.registers.TheConstants.{SCRATCH as scratch};
ghost use Rattle.c0_tree.specs.declared.tree.BinaryOp.TheVariants.{Eq};
ghost use Rattle.c0_typed.specs.Size.{typed_need};
ghost use Rattle.c0_typed.specs.Sorted.{order_of};
ghost use Rattle.c0_typed.specs.View.{typed_expr_view};
ghost use Rattle.c0_expr_code.specs.Emit.{Appends};
ghost use Rattle.c0_expr_code.specs.EmitNodeTest.{bool_node, constant_node, joined_node, logic_node, open_node};
ghost use Rattle.c0_expr_code.specs.EmitNodeTest.{open_order, operation_node, order_node, over_node, registers_node};
ghost use Rattle.c0_expr_code.specs.EmitTest.{AppendsTest, higher_code, is_test_immediate, lower_code, test_with};
ghost use Rattle.c0_expr_code.specs.Jumps.{last_unpatched};
ghost use Rattle.c0_expr_code.specs.Test.{below_code, branch_code, compare_code, immediate_test, negative_branch, positive_branch};

use crate::known::known_word;
use crate::node::emit_operand;
use crate::operator::{emit_below, less};
use crate::patching::patch_all;
use crate::register::Register;
use crate::setting::CodeSetting;
use crate::word::{emit, is_near};
use c0_typed::{Order, Plain, TypedExpr};
use masm::registers::SCRATCH;
use mips_table::Inst;
use std::alloc::{AllocError, Global};

// The branch to where two registers are equal, or where they differ; it leads nowhere yet.
fn branch(is_equal: bool, left: Register, right: Register) -> Inst
    ensures value { result ≡ branch_code is_equal left right 0 }
    ensures range { InRange result }
{
    if is_equal {
        Inst::Beq {
            rs: left.number(),
            rt: right.number(),
            imm: 0,
        }
    } else {
        Inst::Bne {
            rs: left.number(),
            rt: right.number(),
            imm: 0,
        }
    }
}

// The branch to where a register is below 0, or where it isn't.
fn branch_negative(is_below: bool, register: Register) -> Inst
    ensures value { result ≡ negative_branch is_below register 0 }
    ensures range { InRange result }
{
    if is_below {
        Inst::Bltz {
            rs: register.number(),
            imm: 0,
        }
    } else {
        Inst::Bgez {
            rs: register.number(),
            imm: 0,
        }
    }
}

// The branch to where a register is above 0, or where it isn't.
fn branch_positive(is_above: bool, register: Register) -> Inst
    ensures value { result ≡ positive_branch is_above register 0 }
    ensures range { InRange result }
{
    if is_above {
        Inst::Bgtz {
            rs: register.number(),
            imm: 0,
        }
    } else {
        Inst::Blez {
            rs: register.number(),
            imm: 0,
        }
    }
}

// Appends whether one register is below another, and the branch to where it isn't, or where it is.
fn emit_less_test(
    code: &mut Vec<u32>,
    is_not: bool,
    left: Register,
    right: Register,
) -> Result<(), AllocError>
    ensures { Appends code.old.items code.new.items (Slt scratch left right ∷ branch_code is_not scratch 0 0 ∷ []) result }
{
    emit(code, less(Register::new(SCRATCH), left, right))?;
    emit(
        code,
        branch(is_not, Register::new(SCRATCH), Register::new(0)),
    )
}

// Appends an order of two registers as a test.
fn emit_comparison(
    code: &mut Vec<u32>,
    order: Order,
    wanted: bool,
    left: Register,
    right: Register,
) -> Result<(), AllocError>
    ensures { Appends code.old.items code.new.items (compare_code (order_of order) wanted 0 left right) result }
{
    match order {
        Order::Less => emit_less_test(code, !wanted, left, right),
        Order::LessOrEqual => emit_less_test(code, wanted, right, left),
        Order::Greater => emit_less_test(code, !wanted, right, left),
        Order::GreaterOrEqual => emit_less_test(code, wanted, left, right),
    }
}

// Appends the test of whether a register is below a constant.
fn emit_below_test(
    code: &mut Vec<u32>,
    wanted: bool,
    left: Register,
    word: u32,
) -> Result<(), AllocError>
    ensures { Appends code.old.items code.new.items (below_code word wanted 0 left) result }
{
    emit_below(code, Register::new(SCRATCH), left, word)?;
    emit(
        code,
        branch(!wanted, Register::new(SCRATCH), Register::new(0)),
    )
}

// Whether an order has a test with room for a constant on its right side.
fn tests_constant(order: Order, word: u32) -> bool
    ensures { result ≡ is_test_immediate (immediate_test (order_of order) word) }
{
    match order {
        Order::Less => word == 0 || is_near(word),
        Order::LessOrEqual => word == 0 || is_near(word.wrapping_add(1)),
        Order::Greater => word == 0 || is_near(word.wrapping_add(1)),
        Order::GreaterOrEqual => word == 0 || is_near(word),
    }
}

// Appends the test of whether a register is below a constant, by its sign where that is 0.
fn emit_lower(
    code: &mut Vec<u32>,
    wanted: bool,
    left: Register,
    word: u32,
) -> Result<(), AllocError>
    ensures { Appends code.old.items code.new.items (lower_code word wanted left) result }
{
    if word == 0 {
        return emit(code, branch_negative(wanted, left));
    }
    emit_below_test(code, wanted, left, word)
}

// Appends the test of whether a register is above a constant.
fn emit_higher(
    code: &mut Vec<u32>,
    wanted: bool,
    left: Register,
    word: u32,
) -> Result<(), AllocError>
    ensures { Appends code.old.items code.new.items (higher_code word wanted left) result }
{
    if word == 0 {
        return emit(code, branch_positive(wanted, left));
    }
    emit_below_test(code, !wanted, left, word.wrapping_add(1))
}

// Appends the test of a register against a constant that its operator has room for.
fn emit_constant_test(
    code: &mut Vec<u32>,
    order: Order,
    wanted: bool,
    left: Register,
    word: u32,
) -> Result<(), AllocError>
    requires takes { is_test_immediate (immediate_test (order_of order) word) ≡ true }
    ensures { Appends code.old.items code.new.items (test_with (immediate_test (order_of order) word) wanted 0 left) result }
{
    match order {
        Order::Less => emit_lower(code, wanted, left, word),
        Order::LessOrEqual => emit_higher(code, !wanted, left, word),
        Order::Greater => emit_higher(code, wanted, left, word),
        Order::GreaterOrEqual => emit_lower(code, !wanted, left, word),
    }
}

// Notes the place of the last word.
fn note_last(code: &[u32], jumps: &mut Vec<usize>) -> Result<(), AllocError>
    requires { 0 < length code.now }
    ensures { OnOk result (jumps.new.items ≡ jumps.old.items ++ (length code.now - 1) ∷ []) }
{
    jumps.push(code.len() - 1)?;
    Ok(())
}

// Appends the code of a bool's test.
fn emit_bool_code(
    setting: &CodeSetting,
    expr: &TypedExpr,
    wanted: bool,
    free: u32,
    code: &mut Vec<u32>,
) -> Result<(), AllocError>
    requires room { free + typed_need (typed_expr_view expr.now) ≤ 20 }
    ensures { Appends code.old.items code.new.items (bool_node setting.now expr.now wanted free) result }
{
    let register = emit_operand(setting, expr, free, code)?;
    emit(code, branch(!wanted, register, Register::new(0)))
}

// Appends the code of a side, and of its test against a constant.
fn emit_one_side(
    setting: &CodeSetting,
    order: Order,
    side: &TypedExpr,
    word: u32,
    wanted: bool,
    free: u32,
    code: &mut Vec<u32>,
) -> Result<(), AllocError>
    requires room { free + typed_need (typed_expr_view side.now) ≤ 20 }
    requires takes { is_test_immediate (immediate_test (order_of order) word) ≡ true }
    ensures { Appends code.old.items code.new.items (constant_node setting.now (order_of order) word side.now wanted free) result }
{
    let register = emit_operand(setting, side, free, code)?;
    emit_constant_test(code, order, wanted, register, word)
}

// Appends the code of both sides, and of their comparison by an order.
fn emit_two_sides(
    setting: &CodeSetting,
    order: Order,
    left: &TypedExpr,
    right: &TypedExpr,
    wanted: bool,
    free: u32,
    code: &mut Vec<u32>,
) -> Result<(), AllocError>
    requires first { free + typed_need (typed_expr_view left.now) ≤ 20 }
    requires second { free + 1 + typed_need (typed_expr_view right.now) ≤ 20 }
    ensures { Appends code.old.items code.new.items (registers_node setting.now (order_of order) left.now right.now wanted free) result }
{
    let first = emit_operand(setting, left, free, code)?;
    let second = emit_operand(setting, right, free + 1, code)?;
    emit_comparison(code, order, wanted, first, second)
}

// Appends the code of a comparison by an order, whose right side may be a constant.
fn emit_order(
    setting: &CodeSetting,
    order: Order,
    left: &TypedExpr,
    right: &TypedExpr,
    wanted: bool,
    free: u32,
    code: &mut Vec<u32>,
) -> Result<(), AllocError>
    requires first { free + typed_need (typed_expr_view left.now) ≤ 20 }
    requires second { free + 1 + typed_need (typed_expr_view right.now) ≤ 20 }
    ensures { Appends code.old.items code.new.items (order_node setting.now (order_of order) left.now right.now wanted free) result }
{
    if let Some(word) = known_word(right) {
        if tests_constant(order, word) {
            return emit_one_side(setting, order, left, word, wanted, free, code);
        }
    }
    emit_two_sides(setting, order, left, right, wanted, free, code)
}

// Appends the test of a bool.
fn emit_bool(
    setting: &CodeSetting,
    expr: &TypedExpr,
    wanted: bool,
    free: u32,
    code: &mut Vec<u32>,
    jumps: &mut Vec<usize>,
) -> Result<(), AllocError>
    requires room { free + typed_need (typed_expr_view expr.now) ≤ 20 }
    ensures { AppendsTest code.old code.new jumps.old jumps.new (last_unpatched (bool_node setting.now expr.now wanted free)) result }
{
    emit_bool_code(setting, expr, wanted, free, code)?;
    note_last(code, jumps)
}

// Appends a comparison by an order as a test.
fn emit_order_test(
    setting: &CodeSetting,
    order: Order,
    left: &TypedExpr,
    right: &TypedExpr,
    wanted: bool,
    free: u32,
    code: &mut Vec<u32>,
    jumps: &mut Vec<usize>,
) -> Result<(), AllocError>
    requires first { free + typed_need (typed_expr_view left.now) ≤ 20 }
    requires second { free + 1 + typed_need (typed_expr_view right.now) ≤ 20 }
    ensures { AppendsTest code.old code.new jumps.old jumps.new (open_order setting.now order left.now right.now wanted free) result }
{
    emit_order(setting, order, left, right, wanted, free, code)?;
    note_last(code, jumps)
}

// Appends the code of both sides, and of the branch to where they are equal, or where they differ.
fn emit_equality(
    setting: &CodeSetting,
    left: &TypedExpr,
    right: &TypedExpr,
    wanted: bool,
    free: u32,
    code: &mut Vec<u32>,
) -> Result<(), AllocError>
    requires first { free + typed_need (typed_expr_view left.now) ≤ 20 }
    requires second { free + 1 + typed_need (typed_expr_view right.now) ≤ 20 }
    ensures { Appends code.old.items code.new.items (registers_node setting.now Eq left.now right.now wanted free) result }
{
    let first = emit_operand(setting, left, free, code)?;
    let second = emit_operand(setting, right, free + 1, code)?;
    emit(code, branch(wanted, first, second))
}

// Appends `==` as a test; `!=` is that for the other answer.
fn emit_equality_test(
    setting: &CodeSetting,
    left: &TypedExpr,
    right: &TypedExpr,
    wanted: bool,
    free: u32,
    code: &mut Vec<u32>,
    jumps: &mut Vec<usize>,
) -> Result<(), AllocError>
    requires first { free + typed_need (typed_expr_view left.now) ≤ 20 }
    requires second { free + 1 + typed_need (typed_expr_view right.now) ≤ 20 }
    ensures { AppendsTest code.old code.new jumps.old jumps.new (last_unpatched (registers_node setting.now Eq left.now right.now wanted free)) result }
{
    emit_equality(setting, left, right, wanted, free, code)?;
    note_last(code, jumps)
}

// Appends the test of an operator on two registers; `whole` is the expression that they make.
fn emit_operation(
    setting: &CodeSetting,
    whole: &TypedExpr,
    op: Plain,
    left: &TypedExpr,
    right: &TypedExpr,
    wanted: bool,
    free: u32,
    code: &mut Vec<u32>,
    jumps: &mut Vec<usize>,
) -> Result<(), AllocError>
    requires whole { free + typed_need (typed_expr_view whole.now) ≤ 20 }
    requires first { free + typed_need (typed_expr_view left.now) ≤ 20 }
    requires second { free + 1 + typed_need (typed_expr_view right.now) ≤ 20 }
    ensures { AppendsTest code.old code.new jumps.old jumps.new (operation_node setting.now whole.now op left.now right.now wanted free) result }
{
    match op {
        Plain::Sum => emit_bool(setting, whole, wanted, free, code, jumps),
        Plain::Difference => emit_bool(setting, whole, wanted, free, code, jumps),
        Plain::Product => emit_bool(setting, whole, wanted, free, code, jumps),
        Plain::Order(order) => {
            emit_order_test(setting, order, left, right, wanted, free, code, jumps)
        }
        Plain::Equal => emit_equality_test(setting, left, right, wanted, free, code, jumps),
        Plain::Different => emit_equality_test(setting, left, right, !wanted, free, code, jumps),
    }
}

/// Appends the code of a test, with free registers from `free` to 19: it branches where the expression is `wanted`, and else falls through.
/// Its branches lead nowhere yet, and where they stand is appended to `jumps`: `patch_all` gives them their target.
///
/// Want of memory may leave a part of the code, and of the list.
#[cycle(testing)]
pub fn emit_test(
    alloc: Global,
    setting: &CodeSetting,
    expr: &TypedExpr,
    wanted: bool,
    free: u32,
    code: &mut Vec<u32>,
    jumps: &mut Vec<usize>,
) -> Result<(), AllocError>
    requires { free + typed_need (typed_expr_view expr.now) ≤ 20 }
    ensures { AppendsTest code.old code.new jumps.old jumps.new (open_node setting.now expr.now wanted free) result }
{
    match expr {
        TypedExpr::Global(_) => emit_bool(setting, expr, wanted, free, code, jumps),
        TypedExpr::Local(_, _) => emit_bool(setting, expr, wanted, free, code, jumps),
        TypedExpr::Part(_, _) => emit_bool(setting, expr, wanted, free, code, jumps),
        TypedExpr::Element(_, _, _) => emit_bool(setting, expr, wanted, free, code, jumps),
        TypedExpr::Target(_) => emit_bool(setting, expr, wanted, free, code, jumps),
        TypedExpr::Constant(_) => emit_bool(setting, expr, wanted, free, code, jumps),
        TypedExpr::Address(_) => emit_bool(setting, expr, wanted, free, code, jumps),
        TypedExpr::Negative(_) => emit_bool(setting, expr, wanted, free, code, jumps),
        TypedExpr::Negation(operand) => {
            emit_test(alloc, setting, operand, !wanted, free, code, jumps)
        }
        TypedExpr::Plain(op, left, right) => {
            emit_operation(setting, expr, *op, left, right, wanted, free, code, jumps)
        }
        TypedExpr::Quotient(_, _) => emit_bool(setting, expr, wanted, free, code, jumps),
        TypedExpr::Remainder(_, _) => emit_bool(setting, expr, wanted, free, code, jumps),
        TypedExpr::Both(left, right) => {
            emit_both(
                alloc, setting, false, left, right, wanted, free, code, jumps,
            )
        }
        TypedExpr::Either(left, right) => {
            emit_both(alloc, setting, true, left, right, wanted, free, code, jumps)
        }
    }
}

// Appends the test of `||`, which a first side that is true decides, or else of `&&`, which one that is false decides.
#[cycle(testing)]
fn emit_both(
    alloc: Global,
    setting: &CodeSetting,
    decides: bool,
    left: &TypedExpr,
    right: &TypedExpr,
    wanted: bool,
    free: u32,
    code: &mut Vec<u32>,
    jumps: &mut Vec<usize>,
) -> Result<(), AllocError>
    requires first { free + typed_need (typed_expr_view left.now) ≤ 20 }
    requires second { free + typed_need (typed_expr_view right.now) ≤ 20 }
    ensures { AppendsTest code.old code.new jumps.old jumps.new (logic_node setting.now decides left.now right.now wanted free) result }
{
    if decides == wanted {
        emit_joined(alloc, setting, left, right, wanted, free, code, jumps)
    } else {
        emit_over(alloc, setting, left, right, wanted, free, code, jumps)
    }
}

// Appends two tests that go to the target both.
#[cycle(testing)]
fn emit_joined(
    alloc: Global,
    setting: &CodeSetting,
    left: &TypedExpr,
    right: &TypedExpr,
    wanted: bool,
    free: u32,
    code: &mut Vec<u32>,
    jumps: &mut Vec<usize>,
) -> Result<(), AllocError>
    requires first { free + typed_need (typed_expr_view left.now) ≤ 20 }
    requires second { free + typed_need (typed_expr_view right.now) ≤ 20 }
    ensures { AppendsTest code.old code.new jumps.old jumps.new (joined_node setting.now left.now right.now wanted free) result }
{
    emit_test(alloc, setting, left, wanted, free, code, jumps)?;
    let behind = setting.told(left, !wanted);
    emit_test(alloc, &behind, right, wanted, free, code, jumps)
}

// Appends two tests, of which the first goes over the second where it isn't `wanted`.
#[cycle(testing)]
fn emit_over(
    alloc: Global,
    setting: &CodeSetting,
    left: &TypedExpr,
    right: &TypedExpr,
    wanted: bool,
    free: u32,
    code: &mut Vec<u32>,
    jumps: &mut Vec<usize>,
) -> Result<(), AllocError>
    requires first { free + typed_need (typed_expr_view left.now) ≤ 20 }
    requires second { free + typed_need (typed_expr_view right.now) ≤ 20 }
    ensures { AppendsTest code.old code.new jumps.old jumps.new (over_node setting.now left.now right.now wanted free) result }
{
    let mut over = Vec::new(alloc);
    emit_test(alloc, setting, left, !wanted, free, code, &mut over)?;
    let behind = setting.told(left, wanted);
    emit_test(alloc, &behind, right, wanted, free, code, jumps)?;
    let end = code.len();
    patch_all(code, &over, end);
    Ok(())
}
