//! A loop that copies words of memory, with its law.

ghost use Rattle.std.specs.Prelude.{◌≡◌, map};
ghost use Rattle.mips_table.specs.Encoding.{encoding};
ghost use Rattle.mips_table.specs.Code.{World, Sound};
ghost use Rattle.masm.specs.Copy.{copy_turn, copy_code, CopyRuns, Copying, MidCopy, CopyEnds};

use crate::block::Code;
use crate::laws::{Turns, a_loop_pays, runs_compose, straight_code_runs};
use crate::roles::{SOURCE, TARGET, WORD, WORDS};
use crate::{block, code};
use mips_table::Inst;

/// One word is copied, and the addresses and the count go on.
const COPY_TURN: [Inst; 5] = code! {
    lw WORD, 0(SOURCE);
    sw WORD, 0(TARGET);
    addiu SOURCE, SOURCE, 4;
    addiu TARGET, TARGET, 4;
    addiu WORDS, WORDS, -1;
};

// It is, as a block.
fn copy_word() -> Code
    ensures { result ≡ map encoding copy_turn }
{
    block! {
        code COPY_TURN;
    }
}

/// Code that copies words of memory from the address in SOURCE to the one in TARGET, as many as WORDS says. These and WORD change.
pub fn copy_words() -> Code
    ensures { result ≡ map encoding copy_code }
{
    block! {
        while WORDS, copy_word();
    }
}

// The turns of the loop that copies.
struct CopyTurns;

impl Turns for CopyTurns {
    ghost State = { Copying };

    ghost before = { MidCopy };

    ghost tested = { MidCopy };

    ghost ends = { CopyEnds };
}

/// The words are copied, in seven steps each and one more.
pub fn words_are_copied()
    ensures { (w : World) → Sound w → CopyRuns w }
{
    runs_compose();
    straight_code_runs();
    a_loop_pays::<CopyTurns>();
}
