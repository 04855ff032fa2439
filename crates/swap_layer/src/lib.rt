//! The swaps: a frame goes to a sector of the disk, and a sector comes to a frame, by the disk's ports. The blocks name their frame and
//! sector by registers, and so are the same in every map.
//!
//! | Block | Asks | Changes |
//! |---|---|---|
//! | [`move_words`] | from the address in SOURCE to that in TARGET; WORDS is TURNS | SOURCE, TARGET, WORDS, WORD |
//! | [`swap_out`] | the frame at the address in VICTIM_AT, the sector of OUT_PAGE | these, ORDER, the disk's buffer and sector register |
//! | [`read_sector`] | the sector of PAGE | these, the disk's buffer and sector register |
//! | [`copy_to_frame`] | from the address in SOURCE to the frame at that in VICTIM_AT | SOURCE, TARGET, WORDS, WORD |
//! | [`swap_in`] | the sector of PAGE, the frame at the address in VICTIM_AT | as `swap_out` |
//!
//! The names of registers are those of [`masm::roles`].
#![tactic(auto)]

mod laws;
mod swap;

pub use laws::{
    a_frame_goes_out, a_frame_is_settled, a_sector_comes_in, a_sector_is_fetched, words_are_moved,
};
pub use swap::{TURNS, copy_to_frame, move_words, read_sector, swap_in, swap_out};
