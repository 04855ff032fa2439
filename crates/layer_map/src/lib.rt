//! The map of the physical memory: where the layer, the kernel's code, globals, heap and stack, the page tables, the frame table,
//! the zero frame and the user frames stand.
//!
//! | Part | Starts | Words |
//! |---|---|---|
//! | layer: code, control blocks, variables | 0 | 16,384 |
//! | the kernel's code | 0x10000 | those of the code |
//! | globals, in source order | next page | those of the globals |
//! | heap | next page | `heap` |
//! | stack | next page | `stack` |
//! | page tables, user by user | next page | `users * pages` |
//! | frame table | next page | `8 * (frames + 1)` |
//! | zero frame | next page | 1,024 |
//! | user frames | next page | `1024 * frames` |
//!
//! A page has 1,024 words, which is 4,096 bytes. A part of no words takes no room: the next one has the same address.
//! Memory ends with the last user frame, and is smaller than 100 MiB.
//!
//! In the layer's part code stands from 0 to 0xffc and from 0x2000 to 0xbffc, its variables from 0x1000 to 0x1ffc, and the control
//! blocks of users 1 to 64 from 0xc000 on.
#![tactic(auto)]

mod entries;
mod map;
mod params;
mod places;

pub use entries::{
    ANSWER, ARGUMENTS, EXITS, FRAME_END, GLOBALS, LEAVE, PRIMITIVES, RETURN, STACK_END, UNIT_ENTRY,
    entries_are_words,
};
pub use map::{
    Map, blocks_are_in_order, memory_is_whole, parts_are_in_order, parts_begin_pages,
    tables_are_in_order,
};
pub use params::Params;
pub use places::{
    BLOCK_HI, BLOCK_LO, BLOCK_PC, BLOCK_SIZE, BLOCK_WORDS, BLOCKS, CURRENT, HAND, HEAP_FIRST,
    HEAP_USED, HEAP_WORDS, LAYER_WORDS, PAGE_WORDS, SLOTS, STACK_FIRST, STACK_LIMIT, VARIABLES,
    VARIABLES_END, block_of, places_are_words,
};
