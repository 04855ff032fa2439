// The laws of the swaps. Each is the contract of a function that does nothing.
ghost use Rattle.mips_table.specs.Code.{World, Sound};
ghost use Rattle.swap_layer.specs.Laws.{MovesRun, SwapsOut, FetchesSector, FillsFrame, SwapsIn};

use masm::laws::{registers_stay, runs_compose};
use masm::waiting::sectors_are_transferred;

/// 1,024 words are moved in 2,689 steps, within memory or from or to the disk's buffer; all else but SOURCE, TARGET, WORDS and WORD stays.
pub fn words_are_moved()
    ensures { (w : World) → Sound w → MovesRun w }
{
    registers_stay();
}

/// A frame goes to a sector, in 2,699 steps and the disk's busy time: sector and frame agree, and the frame, all other memory and all other
/// sectors are as before.
pub fn a_frame_goes_out()
    ensures { (w : World) → Sound w → SwapsOut w }
{
    registers_stay();
    sectors_are_transferred();
    words_are_moved();
}

/// A sector comes into the buffer, in 8 steps and the disk's busy time; memory and all sectors are as before.
pub fn a_sector_is_fetched()
    ensures { (w : World) → Sound w → FetchesSector w }
{
    words_are_moved();
    registers_stay();
    sectors_are_transferred();
}

/// 1,024 words of memory or of the buffer come into a frame, in 2,691 steps; all else but SOURCE, TARGET, WORDS and WORD stays.
pub fn a_frame_is_settled()
    ensures { (w : World) → Sound w → FillsFrame w }
{
    registers_stay();
    words_are_moved();
}

/// A sector comes to a frame, in 2,699 steps and the disk's busy time: the frame is the sector, and all other memory and all sectors are as before.
pub fn a_sector_comes_in()
    ensures { (w : World) → Sound w → SwapsIn w }
{
    runs_compose();
    a_sector_is_fetched();
    a_frame_is_settled();
}
