//! The file of a saved machine: its words, 32 bits and little-endian each, and nothing else.
//!
//! | Word | Holds |
//! |---|---|
//! | 0 | the four bytes `CVMS` (43 56 4d 53) |
//! | 1 | the form, 1 |
//! | 2 | the frames of memory, m |
//! | 3, 4 | the steps done, the low word first |
//! | 5 | the complete turns, at least 1 |
//! | 6 | the current user, from 1 |
//! | 7 | the mask of the interrupt lines that are latched, at most 255 |
//! | 8 | the address of the next instruction |
//! | 9 to 39 | registers 1 to 31 |
//! | 40, 41 | hi and lo |
//! | 42 to 50 | the special registers 0 to 8 |
//! | 51 | the disk's sector register |
//! | 52, 53 | the number of the disk's next command, at most the steps done |
//! | 54 | the words of input that were taken |
//! | 55 | the words of the log, c, at most 4,096 |
//! | then | the c words of the log, the 1,024 words of the disk's buffer, and the 1,024 * m words of memory |
#![tactic(auto)]

mod fault;
mod reading;
mod writing;

pub use fault::SaveFault;
pub use reading::{
    Sizes, bytes_have_one_answer, read, resumable_words_are_answered, saved_machines_are_read_back,
};
pub use writing::spell;
