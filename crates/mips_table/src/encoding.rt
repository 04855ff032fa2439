// Instructions to words.
ghost use Rattle.std.specs.Prelude.{◌≡◌, ℕ, ◌+◌, ◌*◌, ◌^◌, ◌<◌, ◌≤◌};
ghost use Rattle.mips_table.specs.Word.{r_word, i_word, j_word, code_word};
ghost use Rattle.mips_table.specs.Encoding.{InRange, encoding};

use crate::inst::Inst;
use crate::instruction_rows::rows;

// A word of register fields.
fn register_word(opcode: u32, rs: u32, rt: u32, rd: u32, sa: u32, funct: u32) -> u32
    requires opcode { opcode < 64 }
    requires rs { rs < 32 }
    requires rt { rt < 32 }
    requires rd { rd < 32 }
    requires sa { sa < 32 }
    requires funct { funct < 64 }
    ensures { result ≡ r_word opcode rs rt rd sa funct }
{
    ((((opcode << 5 | rs) << 5 | rt) << 5 | rd) << 5 | sa) << 6 | funct
}

// A word with an immediate.
fn immediate_word(opcode: u32, rs: u32, rt: u32, imm: u32) -> u32
    requires opcode { opcode < 64 }
    requires rs { rs < 32 }
    requires rt { rt < 32 }
    requires imm { imm < 2 ^ 16 }
    ensures { result ≡ i_word opcode rs rt imm }
{
    ((opcode << 5 | rs) << 5 | rt) << 16 | imm
}

// A word with a jump index.
fn jump_word(opcode: u32, index: u32) -> u32
    requires opcode { opcode < 64 }
    requires index { index < 2 ^ 26 }
    ensures { result ≡ j_word opcode index }
{
    opcode << 26 | index
}

// A word with a system call's code.
fn coded_word(code: u32, funct: u32) -> u32
    requires code { code < 2 ^ 20 }
    requires funct { funct < 64 }
    ensures { result ≡ code_word code funct }
{
    code << 6 | funct
}

macro_rules! words {
    ($input:expr, $($inst:pat, $mnemonic:literal, $mask:literal, $value:literal, $word:expr;)*) => {
        match $input {
            $($inst => $word,)*
        }
    };
}

/// The word of an instruction in range.
pub fn encode(inst: &Inst) -> u32
    requires { InRange inst.now }
    ensures { result ≡ encoding inst.now }
{
    rows!(words, *inst)
}
