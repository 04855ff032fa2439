// Words to instructions.
ghost use Rattle.std.specs.Prelude.{◌≡◌, ℕ, IfSome};
ghost use Rattle.mips_table.specs.declared.inst.Inst.{Inst};
ghost use Rattle.mips_table.specs.Encoding.{InRange, encoding};
ghost use Rattle.mips_table.specs.Decoding.{by_funct, by_sign, of_system, inst_of, decoding};

use crate::fields::{Fields, split};
use crate::inst::Inst;
use crate::instruction_rows::places;

// The instruction of these fields in a place. Further values of the place can have an answer of their own.
macro_rules! inst_at {
    (
        ($input:expr $(, $further:literal => $answer:expr)*) $fields:pat, $place:expr;
        $($value:literal $(if $test:expr)? => $inst:expr;)*
    ) => {{
        let $fields = $input;
        match $place {
            $($further => $answer,)*
            $($value $(if $test)? => Some($inst),)*
            _ => None,
        }
    }};
}

// The five functions from here on are inlined into a step, so that one jump serves an instruction's decoding, its effect
// and what is done.

// Opcode 0: told apart by the function number.
#[inline(always)]
fn by_funct(f: &Fields) -> Option<Inst>
    ensures { result ≡ by_funct f.now }
{
    places!(funct, inst_at, *f)
}

// Opcode 1: the branches on a sign.
#[inline(always)]
fn by_sign(f: &Fields) -> Option<Inst>
    ensures { result ≡ by_sign f.now }
{
    places!(sign, inst_at, *f)
}

// Opcode 10, hexadecimal: the special registers.
#[inline(always)]
fn of_system(f: &Fields) -> Option<Inst>
    ensures { result ≡ of_system f.now }
{
    places!(system, inst_at, *f)
}

// The instruction of the fields of a word; unused fields must be 0.
#[inline(always)]
fn inst_of(f: &Fields) -> Option<Inst>
    ensures { result ≡ inst_of f.now }
{
    places!(opcode, inst_at, *f, 0x00 => by_funct(f), 0x01 => by_sign(f), 0x10 => of_system(f))
}

/// The instruction of a word: the one that `encode` gives this word, if there is one.
#[inline(always)]
pub fn decode(word: u32) -> Option<Inst>
    ensures value { result ≡ decoding word }
    ensures found { IfSome result (λ i. InRange i × (encoding i ≡ word)) }
    ensures only { (i : Inst) → InRange i → encoding i ≡ word → result ≡ Some i }
{
    inst_of(&split(word))
}

/// The word of each instruction in range is decoded to that instruction.
pub fn decoding_of_encoding()
    ensures { (i : Inst) → InRange i → decoding (encoding i) ≡ Some i }
{}

/// An instruction that a word decodes to is in range, and has this word.
pub fn encoding_of_decoding()
    ensures { (word : ℕ) → IfSome (decoding word) (λ i. InRange i × (encoding i ≡ word)) }
{}
