// Addresses of places: a register and bytes from it on.

ghost use Rattle.std.specs.Prelude.{◌≡◌, ◌+◌, ◌%◌, ◌^◌, ◌<◌, OnErr};
ghost use Rattle.mips_table.specs.Encoding.{InRange};
ghost use Rattle.c0_expr_code.specs.Code.{high, access_code};
ghost use Rattle.c0_expr_code.specs.Emit.{Appends, access_inst, far_code, address_view};

use crate::register::Register;
use crate::word::{emit, is_near, low};
use masm::registers::SCRATCH;
use mips_table::{Inst, encode};
use std::alloc::AllocError;

/// The address of a place: that in the register `base`, and `displacement` bytes, modulo 2^32.
#[derive(Clone, Copy, Debug)]
pub struct Address {
    /// The register.
    pub base: Register,
    /// The bytes.
    pub displacement: u32,
}

/// What is done with a place.
#[derive(Clone, Copy, Debug)]
pub enum Access {
    /// Its word goes to a register.
    Load,
    /// A register's word goes there.
    Store,
    /// Its address goes to a register.
    Address,
}

impl Address {
    /// The address where there is no place.
    pub fn none() -> Address
        ensures base { result.base ≡ 0 }
        ensures displacement { result.displacement ≡ 0 }
    {
        Address {
            base: Register::new(0),
            displacement: 0,
        }
    }

    /// The address so many bytes behind, modulo 2^32.
    pub fn moved(self, bytes: u32) -> Address
        ensures base { result.base ≡ self.base }
        ensures displacement { result.displacement ≡ (self.displacement + bytes) % 2 ^ 32 }
    {
        Address {
            base: self.base,
            displacement: self.displacement.wrapping_add(bytes),
        }
    }
}

// The instruction of an access.
fn access_of(access: Access, register: Register, base: Register, imm: u32) -> Inst
    requires imm { imm < 2 ^ 16 }
    ensures value { result ≡ access_inst access register base imm }
    ensures range { InRange result }
{
    match access {
        Access::Load => Inst::Lw {
            rt: register.number(),
            rs: base.number(),
            imm,
        },
        Access::Store => Inst::Sw {
            rt: register.number(),
            rs: base.number(),
            imm,
        },
        Access::Address => Inst::Addiu {
            rt: register.number(),
            rs: base.number(),
            imm,
        },
    }
}

// The upper half of a word, to which the lower half is added with its sign.
fn upper(word: u32) -> u32
    ensures value { result ≡ high word }
    ensures small { result < 2 ^ 16 }
{
    word.wrapping_add(0x8000) / 0x1_0000
}

// Appends the access to a place that is too far for an immediate.
fn emit_far(
    code: &mut Vec<u32>,
    access: Access,
    register: Register,
    free: Register,
    address: Address,
) -> Result<(), AllocError>
    ensures appended { Appends code.old.items code.new.items (far_code (access_inst access register) free (address_view address)) result }
    ensures unchanged { OnErr result (code.new.items ≡ code.old.items) }
{
    let half = Inst::Lui {
        rt: SCRATCH,
        imm: upper(address.displacement),
    };
    let sum = Inst::Addu {
        rd: free.number(),
        rs: address.base.number(),
        rt: SCRATCH,
    };
    let last = access_of(access, register, free, low(address.displacement));
    code.extend_from_slice(&[encode(&half), encode(&sum), encode(&last)])
}

/// Appends the code that loads the word of a place into a register, stores the register there, or puts the place's address into the
/// register; where the place is too far for an immediate, `free` holds its address.
///
/// Want of memory leaves `code` as it was.
pub fn emit_access(
    code: &mut Vec<u32>,
    access: Access,
    register: Register,
    free: Register,
    address: Address,
) -> Result<(), AllocError>
    ensures appended { Appends code.old.items code.new.items (access_code (access_inst access register) free (address_view address)) result }
    ensures unchanged { OnErr result (code.new.items ≡ code.old.items) }
{
    if is_near(address.displacement) {
        emit(
            code,
            access_of(access, register, address.base, low(address.displacement)),
        )
    } else {
        emit_far(code, access, register, free, address)
    }
}
