// What is known of a typed expression by its outermost part, and the places of locals.

ghost use Rattle.std.specs.Prelude.{◌≡◌, ℕ, ◌+◌, ◌-◌, ◌*◌, ◌%◌, ◌^◌, Some};
ghost use Rattle.c0_typed.specs.View.{typed_expr_view};
ghost use Rattle.c0_expr_code.specs.Facts.{register_of_variable};
ghost use Rattle.c0_expr_code.specs.Emit.{IsSameAddress};
ghost use Rattle.c0_expr_code.specs.FrameSetting.{FrameSetting};
ghost use Rattle.c0_expr_code.specs.Known.{local_register, own_register, stands_of, written_word, zero_register};
ghost use Rattle.c0_expr_code.specs.Node.{local_node, node_made};
ghost use Rattle.c0_expr_code.specs.SettingIn.{node_in, setting_in};

use crate::address::Address;
use crate::register::Register;
use crate::setting::CodeSetting;
use crate::word::wrapped;
use c0_typed::TypedExpr;
use masm::registers::{ARGUMENTS, FRAME_END};

// The word that an expression is, where it is written.
fn word_of(expr: &TypedExpr) -> Option<u32>
    ensures { result ≡ written_word (typed_expr_view expr.now) }
{
    match expr {
        TypedExpr::Global(_) => None,
        TypedExpr::Local(_, _) => None,
        TypedExpr::Part(_, _) => None,
        TypedExpr::Element(_, _, _) => None,
        TypedExpr::Target(_) => None,
        TypedExpr::Constant(word) => Some(*word),
        TypedExpr::Address(_) => None,
        TypedExpr::Negative(_) => None,
        TypedExpr::Negation(_) => None,
        TypedExpr::Plain(_, _, _) => None,
        TypedExpr::Quotient(_, _) => None,
        TypedExpr::Remainder(_, _) => None,
        TypedExpr::Both(_, _) => None,
        TypedExpr::Either(_, _) => None,
    }
}

/// The word that an expression is known to be.
pub fn known_word(expr: &TypedExpr) -> Option<u32>
    ensures { (st : FrameSetting) → result ≡ (node_made st (typed_expr_view expr.now)).known }
{
    word_of(expr)
}

// Register 0, where a word is 0.
fn zero_of(word: u32) -> Option<Register>
    ensures { result ≡ zero_register (Some word) }
{
    if word == 0 {
        Some(Register::new(0))
    } else {
        None
    }
}

// The register of a variable.
fn register_of(number: u32) -> Register
    ensures { result ≡ register_of_variable number }
{
    Register::new(((u64::from(ARGUMENTS) + u64::from(number)) % 32) as u32)
}

// The register of a variable, where variables stand in registers, or that has its word.
fn register_where(setting: &CodeSetting, number: u32) -> Option<Register>
    ensures { result ≡ local_register setting.now.in_registers setting.now.facts number }
{
    if setting.in_registers {
        Some(register_of(number))
    } else {
        setting.facts.register_holding(number)
    }
}

// The register in which an expression stands with no code.
fn stands(setting: &CodeSetting, expr: &TypedExpr) -> Option<Register>
    ensures { result ≡ stands_of setting.now.in_registers setting.now.facts (typed_expr_view expr.now) }
{
    match expr {
        TypedExpr::Global(_) => None,
        TypedExpr::Local(number, _) => register_where(setting, *number),
        TypedExpr::Part(_, _) => None,
        TypedExpr::Element(_, _, _) => None,
        TypedExpr::Target(_) => None,
        TypedExpr::Constant(word) => zero_of(*word),
        TypedExpr::Address(_) => None,
        TypedExpr::Negative(_) => None,
        TypedExpr::Negation(_) => None,
        TypedExpr::Plain(_, _, _) => None,
        TypedExpr::Quotient(_, _) => None,
        TypedExpr::Remainder(_, _) => None,
        TypedExpr::Both(_, _) => None,
        TypedExpr::Either(_, _) => None,
    }
}

/// The register in which an expression stands with no code.
pub fn register_standing(setting: &CodeSetting, expr: &TypedExpr) -> Option<Register>
    ensures { result ≡ (node_in setting.now expr.now).stands }
{
    stands(setting, expr)
}

// The register of a variable, where variables stand in registers.
fn own(in_registers: bool, expr: &TypedExpr) -> Option<Register>
    ensures { result ≡ own_register in_registers (typed_expr_view expr.now) }
{
    match expr {
        TypedExpr::Global(_) => None,
        TypedExpr::Local(number, _) => {
            if in_registers {
                Some(register_of(*number))
            } else {
                None
            }
        }
        TypedExpr::Part(_, _) => None,
        TypedExpr::Element(_, _, _) => None,
        TypedExpr::Target(_) => None,
        TypedExpr::Constant(_) => None,
        TypedExpr::Address(_) => None,
        TypedExpr::Negative(_) => None,
        TypedExpr::Negation(_) => None,
        TypedExpr::Plain(_, _, _) => None,
        TypedExpr::Quotient(_, _) => None,
        TypedExpr::Remainder(_, _) => None,
        TypedExpr::Both(_, _) => None,
        TypedExpr::Either(_, _) => None,
    }
}

/// The register that an expression is, where it is a variable that stands nowhere else.
pub fn register_place(setting: &CodeSetting, expr: &TypedExpr) -> Option<Register>
    ensures { result ≡ (node_in setting.now expr.now).register }
{
    own(setting.in_registers, expr)
}

/// The bytes from the frame's end to a word of the frame, modulo 2^32.
pub fn frame_bytes(setting: &CodeSetting, word: u64) -> u32
    ensures { result ≡ (2 ^ 32 - 4 * setting.now.frame % 2 ^ 32 + 4 * word) % 2 ^ 32 }
{
    wrapped(word.wrapping_sub(setting.frame).wrapping_mul(4))
}

/// The place of a variable so many words behind the first one; no place where it stands in a register.
pub fn local_address(setting: &CodeSetting, words: u64) -> Address
    ensures { (n r : ℕ) → IsSameAddress result ((local_node (setting_in setting.now) n words).place r) }
{
    if setting.in_registers {
        Address::none()
    } else {
        Address {
            base: Register::new(FRAME_END),
            displacement: frame_bytes(setting, words.wrapping_add(3)),
        }
    }
}
