// The form of an instruction in a text.

ghost use Rattle.std.specs.Prelude.{◌≡◌, bytes_eq};
ghost use Rattle.mips_table.specs.Rows.{mnemonic_of as mnemonic_in};

use mips_table::{Inst, mnemonic_of};

/// A field of the word that names a register.
#[derive(Clone, Copy)]
pub enum Field {
    /// Bits 25 to 21.
    Rs,
    /// Bits 20 to 16.
    Rt,
    /// Bits 15 to 11.
    Rd,
}

/// What an operand is.
#[derive(Clone, Copy)]
pub enum Operand {
    /// `r0` to `r31`.
    Register(Field),
    /// `c0` to `c8`.
    Special,
    /// The amount of a shift.
    Amount,
    /// The code of a trap, which may be left out.
    Code,
    /// A number of 16 bits with a sign.
    Signed,
    /// A number of 16 bits without a sign.
    Unsigned,
    /// A label, or the distance in words from the word after the branch.
    Branch,
    /// A label, or the index of a word.
    Jump,
    /// A number of 16 bits with a sign, and a register in parentheses.
    Memory,
}

/// An instruction's form: the instruction where all operands are 0, and the operands in order.
#[derive(Clone, Copy)]
pub struct Form {
    pub inst: Inst,
    pub operands: &'static [Operand],
}

impl Form {
    /// Whether it has this mnemonic.
    pub fn is_named(&self, name: &[u8]) -> bool
        ensures { result ≡ bytes_eq (mnemonic_in self.now.inst) name.now }
    {
        mnemonic_of(&self.inst).as_bytes() == name
    }
}
