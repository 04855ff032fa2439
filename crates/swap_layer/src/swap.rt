// The blocks.
ghost use Rattle.std.specs.Prelude.{◌≡◌, ◌<◌, map};
ghost use Rattle.mips_table.specs.Encoding.{encoding};
ghost use Rattle.swap_layer.specs.Code.{move_words_code, run_disk_command_code, swap_out_code, read_sector_code, copy_to_frame_code, swap_in_code};

use masm::addresses::{BUFFER, COMMAND, READ_SECTOR, SECTOR, WRITE_SECTOR};
use masm::roles::{ORDER, OUT_PAGE, PAGE, SOURCE, TARGET, VICTIM_AT, WORD, WORDS, ZERO};
use masm::waiting::wait_for_disk;
use masm::{Block, block, code};
use mips_table::Inst;

/// How many turns of eight words move the 1,024 words of a frame.
pub const TURNS: u32 = 128;

/// Eight words are moved, both addresses go on behind them, and one turn less is left.
const MOVE_EIGHT_WORDS: [Inst; 19] = code! {
    lw WORD, 0(SOURCE);
    sw WORD, 0(TARGET);
    lw WORD, 4(SOURCE);
    sw WORD, 4(TARGET);
    lw WORD, 8(SOURCE);
    sw WORD, 8(TARGET);
    lw WORD, 12(SOURCE);
    sw WORD, 12(TARGET);
    lw WORD, 16(SOURCE);
    sw WORD, 16(TARGET);
    lw WORD, 20(SOURCE);
    sw WORD, 20(TARGET);
    lw WORD, 24(SOURCE);
    sw WORD, 24(TARGET);
    lw WORD, 28(SOURCE);
    sw WORD, 28(TARGET);
    addiu SOURCE, SOURCE, 32;       // eight words have 32 bytes
    addiu TARGET, TARGET, 32;
    addiu WORDS, WORDS, -1;
};

/// Code that moves 1,024 words from the address in SOURCE to that in TARGET, where WORDS is TURNS, which is 128. Eight a turn take 2,689 steps;
/// by `copy_words` of masm, which copies any number of words one by one, they would be 7,169.
pub fn move_words() -> Block<21>
    ensures { result ≡ map encoding move_words_code }
{
    let move_eight_words: Block<19> = block! {
        code MOVE_EIGHT_WORDS;
    };
    block! {
        while WORDS, move_eight_words;
    }
}

// A register names the sector, the command is given, and its end waited for.
fn run_disk_command(sector: u32, order: u32) -> Block<6>
    requires register { sector < 32 }
    requires order { order < 65536 }
    ensures { result ≡ map encoding (run_disk_command_code sector order) }
{
    block! {
        sw sector, SECTOR(ZERO);
        addiu ORDER, ZERO, order;
        sw ORDER, COMMAND(ZERO);        // the disk begins
        then wait_for_disk();           // until it is done
    }
}

/// The frame at the address in VICTIM_AT is to be moved to the disk's buffer.
const FROM_FRAME_TO_BUFFER: [Inst; 3] = code! {
    addu SOURCE, VICTIM_AT, ZERO;
    addiu TARGET, ZERO, BUFFER;     // its sign is extended, so it is 0xffffe000
    addiu WORDS, ZERO, TURNS;       // of eight words each
};

/// Code that writes the frame at the address in VICTIM_AT to the sector of OUT_PAGE.
pub fn swap_out() -> Block<30>
    ensures { result ≡ map encoding swap_out_code }
{
    block! {
        code FROM_FRAME_TO_BUFFER;
        then move_words();
        then run_disk_command(OUT_PAGE, WRITE_SECTOR);
    }
}

/// The words that were read stand in the disk's buffer.
const FROM_BUFFER: [Inst; 1] = code! {
    addiu SOURCE, ZERO, BUFFER;     // its sign is extended, so it is 0xffffe000
};

/// Code that reads the sector of PAGE into the buffer, whose address SOURCE becomes.
pub fn read_sector() -> Block<7>
    ensures { result ≡ map encoding read_sector_code }
{
    block! {
        then run_disk_command(PAGE, READ_SECTOR);
        code FROM_BUFFER;
    }
}

/// Words are to be moved to the frame at the address in VICTIM_AT.
const TO_FRAME: [Inst; 2] = code! {
    addu TARGET, VICTIM_AT, ZERO;
    addiu WORDS, ZERO, TURNS;       // of eight words each
};

/// Code that moves the 1,024 words at the address in SOURCE to the frame at that in VICTIM_AT.
pub fn copy_to_frame() -> Block<23>
    ensures { result ≡ map encoding copy_to_frame_code }
{
    block! {
        code TO_FRAME;
        then move_words();
    }
}

/// Code that reads the sector of PAGE into the frame at the address in VICTIM_AT.
pub fn swap_in() -> Block<30>
    ensures { result ≡ map encoding swap_in_code }
{
    block! {
        then read_sector();
        then copy_to_frame();
    }
}
