//! The routines, one behind the other.

ghost use Rattle.std.specs.Prelude.{◌≡◌, ◌++◌, ◌<◌, ◌^◌, map, OnOk, OnErr};
ghost use Rattle.mips_table.specs.Encoding.{encoding};
ghost use Rattle.masm.specs.CodeAddresses.{AreCodeAddresses};
ghost use Rattle.c0_runtime.specs.Code.{new_routine, multiply_code, division_routine, divide_code, remainder_code, runtime_code};

use crate::new_object::new_object;
use masm::registers::{ANSWER, ARGUMENTS, CodeAddresses, RETURN};
use masm::roles::ZERO;
use masm::{Block, block, code};
use mips_table::Inst;
use std::alloc::{AllocError, Global};
use std::vec::Vec;

/// Where the routine `new` stands, in words behind the first routine's first.
pub const NEW_OBJECT: u32 = 0;

/// Where the routine that multiplies stands.
pub const MULTIPLY: u32 = 18;

/// Where the routine that divides stands.
pub const DIVIDE: u32 = 21;

/// Where the routine that gives the remainder stands.
pub const REMAINDER: u32 = 26;

/// The words of all routines.
pub const RUNTIME_WORDS: u32 = 31;

/// Appends the routines that `addresses` names: `new`, and those that multiply, divide and give the remainder.
///
/// Want of memory leaves `code` as it was.
pub fn emit_runtime(
    _alloc: Global,
    addresses: &CodeAddresses,
    code: &mut Vec<u32>,
) -> Result<(), AllocError>
    requires { AreCodeAddresses addresses.now }
    ensures appended { OnOk result (code.new.items ≡ code.old.items ++ map encoding (runtime_code addresses.now)) }
    ensures unchanged { OnErr result (code.new.items ≡ code.old.items) }
{
    let all = routines(addresses.faults[2]);
    code.extend_from_slice(all.words())
}

// All routines.
fn routines(exit: u32) -> Block<31>
    requires { exit < 2 ^ 28 }
    ensures { result ≡ map encoding (new_routine ++ (multiply_code ++ (divide_code exit ++ remainder_code exit))) }
{
    block! {
        then new_object();
        then multiply();
        then divide(exit);
        then remainder(exit);
    }
}

/// The product of the first two arguments.
const MULTIPLY_INTS: [Inst; 3] = code! {
    mult ARGUMENTS, ARGUMENTS + 1;
    mflo ANSWER;
    jr RETURN;
};

// The product.
fn multiply() -> Block<3>
    ensures { result ≡ map encoding multiply_code }
{
    block! {
        code MULTIPLY_INTS;
    }
}

/// The quotient is the answer.
const GIVE_QUOTIENT: [Inst; 2] = code! {
    mflo ANSWER;
    jr RETURN;
};

/// What the quotient leaves is the answer.
const GIVE_REMAINDER: [Inst; 2] = code! {
    mfhi ANSWER;
    jr RETURN;
};

// The first two arguments are divided, unless the second is 0.
fn division(exit: u32) -> Block<3>
    requires { exit < 2 ^ 28 }
    ensures { result ≡ map encoding (division_routine exit) }
{
    block! {
        bne ARGUMENTS + 1, ZERO, 1;     // over the next line
        j exit / 4;
        div ARGUMENTS, ARGUMENTS + 1;
    }
}

// Their quotient.
fn divide(exit: u32) -> Block<5>
    requires { exit < 2 ^ 28 }
    ensures { result ≡ map encoding (divide_code exit) }
{
    block! {
        then division(exit);
        code GIVE_QUOTIENT;
    }
}

// What the quotient leaves.
fn remainder(exit: u32) -> Block<5>
    requires { exit < 2 ^ 28 }
    ensures { result ≡ map encoding (remainder_code exit) }
{
    block! {
        then division(exit);
        code GIVE_REMAINDER;
    }
}
