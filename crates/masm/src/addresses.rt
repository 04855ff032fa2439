//! Addresses that the layer's code names by a load's or a store's 16 bits from 0. Those of ports are the low halves: the machine extends
//! their sign.

ghost use Rattle.std.specs.Prelude.{◌≡◌, ◌+◌, ◌*◌};
ghost use Rattle.mips_table.specs.Device.{BUFFER as buffer_word, SECTOR as sector_word, COMMAND as command_word, POWER as power_word};
ghost use Rattle.mips_table.specs.Machine.{LOG as log_word, LEFT as left_word, INPUT as input_word};
ghost use Rattle.layer_map.specs.Map.{block_at};

/// The disk's buffer, of 1,024 words.
pub const BUFFER: u32 = 0xe000;

/// The disk's sector register: the sector that the next command concerns.
pub const SECTOR: u32 = 0xf000;

/// The disk's command port: a store of READ_SECTOR or WRITE_SECTOR gives that command, and a load tells the status, 0 where none is under way.
pub const COMMAND: u32 = 0xf004;

/// The power port: a store turns the machine off.
pub const POWER: u32 = 0xf008;

/// The console's log: a store appends a word, and a load tells its length.
pub const LOG: u32 = 0xf00c;

/// How many input words are left.
pub const INPUT_LEFT: u32 = 0xf010;

/// The next input word, which a load takes.
pub const INPUT: u32 = 0xf014;

/// The control block of user 1, which those of the other users follow. As a number it goes into a register by `ori`.
pub const BLOCKS: u32 = layer_map::BLOCKS;

/// The disk's command that reads a sector into the buffer.
pub const READ_SECTOR: u32 = 1;

/// The disk's command that writes the buffer to a sector.
pub const WRITE_SECTOR: u32 = 2;

/// A law: the constants are the addresses of the words that the machine's and the map's definitions name.
pub fn addresses_are_words()
    ensures buffer { 0xffff0000 + BUFFER ≡ 4 * buffer_word }
    ensures sector { 0xffff0000 + SECTOR ≡ 4 * sector_word }
    ensures command { 0xffff0000 + COMMAND ≡ 4 * command_word }
    ensures power { 0xffff0000 + POWER ≡ 4 * power_word }
    ensures log { 0xffff0000 + LOG ≡ 4 * log_word }
    ensures left { 0xffff0000 + INPUT_LEFT ≡ 4 * left_word }
    ensures input { 0xffff0000 + INPUT ≡ 4 * input_word }
    ensures blocks { BLOCKS ≡ 4 * block_at 1 }
{}
