//! The page-fault block: code that brings in a page, to read or to store, for a handled fault and for the primitives.
//!
//! PAGE is the page, by its number over all users, and FOR_STORE isn't 0 where the page is to be stored to. A page that passes is left as
//! it is; a protected page that alone names its user frame loses its protection; else the frame at the hand is emptied and takes the page's
//! words, from its sector or from the frame that it shared. Registers 13 to 16 and from 26 on stay.
#![tactic(auto)]

mod block;
mod laws;

pub use block::handle_page;
pub use laws::{a_page_is_brought_in, maps_are_sited, the_block_is_a_page_block};
