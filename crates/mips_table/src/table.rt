// The rows of the instruction table.
ghost use Rattle.std.specs.Prelude.{◌≡◌, IsTrue};
ghost use Rattle.mips_table.specs.Rows.{rows_apart, mnemonics_apart, OneRow, AreInstructions, mnemonic_of};

use crate::inst::Inst;
use crate::instruction_rows::rows;

/// One row: its words are those whose bits under the mask are the value, where a special register in them is at most 8.
#[derive(Clone, Copy)]
pub struct Row {
    /// The instruction's name in the assembler.
    pub mnemonic: &'static str,
    /// The bits that all words of the row have in common.
    pub mask: u32,
    /// What these bits are.
    pub value: u32,
}

/// A table of rows.
#[derive(Clone, Copy)]
pub struct Table<const ROWS: usize> {
    pub rows: [Row; ROWS],
}

macro_rules! table {
    ($($inst:pat, $mnemonic:literal, $mask:literal, $value:literal, $word:expr;)*) => {
        Table {
            rows: [$(Row {
                mnemonic: $mnemonic,
                mask: $mask,
                value: $value,
            }),*],
        }
    };
}

macro_rules! mnemonics {
    ($input:expr, $($inst:pat, $mnemonic:literal, $mask:literal, $value:literal, $word:expr;)*) => {
        match $input {
            $($inst => $mnemonic,)*
        }
    };
}

/// The instruction table, a row for each variant of `Inst` in its order.
///
/// No word is in two rows, and no mnemonic stands twice. The words of a row are exactly those of the instructions with
/// its mnemonic.
pub fn mips32() -> Table<48>
    ensures words { IsTrue (rows_apart result.rows) }
    ensures one_row { OneRow result.rows }
    ensures names { IsTrue (mnemonics_apart result.rows) }
    ensures instructions { AreInstructions result.rows }
{
    rows!(table)
}

/// The mnemonic of an instruction.
pub fn mnemonic_of(inst: &Inst) -> &'static str
    ensures { result.now ≡ mnemonic_of inst.now }
{
    rows!(mnemonics, *inst)
}

/// No word is in two rows of rows that pass the test.
pub fn one_row(rows: &[Row])
    requires { IsTrue (rows_apart rows.now) }
    ensures { OneRow rows.now }
{}
