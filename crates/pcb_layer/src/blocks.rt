// The blocks.
ghost use Rattle.std.specs.Prelude.{◌≡◌, ◌<◌, ◌≤◌, map};
ghost use Rattle.mips_table.specs.Encoding.{encoding};
ghost use Rattle.pcb_layer.specs.Code.{save_registers_code, restore_registers_code, find_control_block_code, save_context_code};
ghost use Rattle.pcb_layer.specs.Code.{save_user_code, restore_user_code, load_registers_code};

use layer_map::{BLOCK_HI, BLOCK_LO, BLOCK_PC, CURRENT, VARIABLES};
use masm::addresses::BLOCKS;
use masm::registers::SCRATCH;
use masm::roles::{BLOCK, ZERO};
use masm::{Block, block, code, instruction};
use mips_table::{EPC, Inst};

/// Code that saves registers 1 to 31 in the save area.
pub fn save_registers() -> Block<31>
    ensures { result ≡ map encoding (save_registers_code 31) }
{
    let mut code = Block::<31>::new();
    for n in 0..31u32 {
        code.push(instruction!(sw n + 1, (VARIABLES + 4 * n)(ZERO)));
    }
    code
}

// Registers 1 to `count` are loaded, each from the word of its number behind so many words, at most 8,000, from a base register's address on.
fn load_registers(base: u32, offset: u32, count: u32) -> Block<31>
    requires base { base < 32 }
    requires offset { offset ≤ 8000 }
    requires count { count ≤ 31 }
    ensures { result ≡ map encoding (load_registers_code base offset count) }
{
    let mut code = Block::<31>::new();
    for n in 0..count {
        code.push(instruction!(lw n + 1, (4 * (offset + (n + 1)))(base)));
    }
    code
}

/// Code that restores registers 1 to 31 from the save area.
pub fn restore_registers() -> Block<31>
    ensures { result ≡ map encoding (restore_registers_code 31) }
{
    // The area's first word is that of register 1: register 0 has none.
    load_registers(ZERO, VARIABLES / 4 - 1, 31)
}

/// BLOCK becomes the address of the current user's control block.
const FIND_CONTROL_BLOCK: [Inst; 5] = code! {
    lw BLOCK, CURRENT(ZERO);
    addiu BLOCK, BLOCK, -1;         // users are counted from 1
    sll BLOCK, BLOCK, 8;            // a control block has 256 bytes
    ori SCRATCH, ZERO, BLOCKS;      // no sign is extended, as that of an addiu would be
    addu BLOCK, BLOCK, SCRATCH;
};

/// Code by which BLOCK becomes the address of the current user's control block. SCRATCH changes, too.
pub fn find_control_block() -> Block<5>
    ensures { result ≡ map encoding find_control_block_code }
{
    block! {
        code FIND_CONTROL_BLOCK;
    }
}

// The saved registers go to the control block.
fn save_context() -> Block<62>
    ensures { result ≡ map encoding (save_context_code 31) }
{
    let mut code = Block::<62>::new();
    for n in 0..31u32 {
        code.push(instruction!(lw SCRATCH, (VARIABLES + 4 * n)(ZERO)));
        code.push(instruction!(sw SCRATCH, (4 * (n + 1))(BLOCK)));
    }
    code
}

/// The pc before the interrupt, hi and lo go to the control block.
const SAVE_SPECIAL: [Inst; 6] = code! {
    mfc0 SCRATCH, EPC;
    sw SCRATCH, (4 * BLOCK_PC)(BLOCK);
    mfhi SCRATCH;
    sw SCRATCH, (4 * BLOCK_HI)(BLOCK);
    mflo SCRATCH;
    sw SCRATCH, (4 * BLOCK_LO)(BLOCK);
};

/// The pc, to which an eret goes, hi and lo come from the control block.
const RESTORE_SPECIAL: [Inst; 6] = code! {
    lw SCRATCH, (4 * BLOCK_PC)(BLOCK);
    mtc0 SCRATCH, EPC;
    lw SCRATCH, (4 * BLOCK_HI)(BLOCK);
    mthi SCRATCH;
    lw SCRATCH, (4 * BLOCK_LO)(BLOCK);
    mtlo SCRATCH;
};

/// Code that copies what is saved, epc, hi and lo to the current user's control block.
pub fn save_user() -> Block<73>
    ensures { result ≡ map encoding save_user_code }
{
    block! {
        then find_control_block();
        then save_context();
        code SAVE_SPECIAL;
    }
}

/// Code that restores registers 1 to 31, epc, hi and lo from the current user's control block. BLOCK, which is register 31, comes last.
pub fn restore_user() -> Block<42>
    ensures { result ≡ map encoding restore_user_code }
{
    block! {
        then find_control_block();
        code RESTORE_SPECIAL;
        then load_registers(BLOCK, 0, 31);
    }
}
