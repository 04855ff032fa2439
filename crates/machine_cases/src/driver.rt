// The code that calls the block.

use layer_map::Map;
use masm::registers::SCRATCH;
use masm::roles::{self, FOR_STORE, ZERO};
use masm::{Block, block};
use page_fault::handle_page;

/// The word of the page that is asked for.
pub const PAGE: u32 = 1040;

/// The word that isn't 0 where the page is to be stored to.
pub const STORE: u32 = 1041;

/// The word that lets the block begin; it becomes 0.
pub const BEGIN: u32 = 1042;

/// The address of the block's first instruction.
pub const FIRST: u32 = 20;

/// The address behind its last.
pub const LAST: u32 = 712;

/// Code for address 0, which waits until it may begin, runs the block and waits again.
pub fn driver(map: &Map) -> Block<200> {
    block! {
        lw SCRATCH, (4 * BEGIN)(ZERO);
        beq SCRATCH, ZERO, -2;                  // back to the line above
        sw ZERO, (4 * BEGIN)(ZERO);
        lw roles::PAGE, (4 * PAGE)(ZERO);
        lw FOR_STORE, (4 * STORE)(ZERO);
        then handle_page(map);
        beq ZERO, ZERO, -179;                   // back to the first
    }
}
