//! A loop that waits for the disk, with its law.

ghost use Rattle.std.specs.Prelude.{◌≡◌, map};
ghost use Rattle.mips_table.specs.Encoding.{encoding};
ghost use Rattle.mips_table.specs.Code.{World, Sound};
ghost use Rattle.masm.specs.Wait.{wait_code, WaitRuns, TransfersRun};

use crate::addresses::COMMAND;
use crate::block::Code;
use crate::laws::{a_loop_turns, runs_compose, straight_code_runs};
use crate::roles::{STATUS, ZERO};
use crate::{block, code};
use mips_table::Inst;

/// The disk's status.
const READ_STATUS: [Inst; 1] = code! {
    lw STATUS, COMMAND(ZERO);
};

/// Code that reads the disk's status until no command is under way. STATUS changes.
pub fn wait_for_disk() -> Code
    ensures { result ≡ map encoding wait_code }
{
    block! {
        code READ_STATUS;
        beq STATUS, ZERO, 1;            // no command is under way: over the next line
        beq ZERO, ZERO, -3;             // back to the read
    }
}

/// Whatever command is under way, it is done within its own steps and five more, and where none is, the wait takes two, where ports may be used.
pub fn the_disk_is_waited_for()
    ensures { (w : World) → Sound w → WaitRuns w }
{
    runs_compose();
    straight_code_runs();
    a_loop_turns();
}

/// A sector is read into the buffer, or the buffer is written to it, by a command and the wait for it.
pub fn sectors_are_transferred()
    ensures { (w : World) → Sound w → TransfersRun w }
{
    runs_compose();
    straight_code_runs();
    the_disk_is_waited_for();
}
