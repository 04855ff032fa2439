//! What the layer keeps in registers, by name.
//!
//! T0 to T3 are temporaries: what one of them holds is for the next lines alone, or for the next block where the comments of both say so. Every
//! other name here but WORDS and ENTRY means the same in all blocks; a number with two names has two meanings, at different times.

/// Always 0.
pub const ZERO: u32 = 0;

/// A temporary.
pub const T0: u32 = 8;

/// A temporary.
pub const T1: u32 = 9;

/// A temporary.
pub const T2: u32 = 10;

/// A temporary.
pub const T3: u32 = 11;

/// The address of the words that are copied.
pub const SOURCE: u32 = 1;

/// The address to which they are copied.
pub const TARGET: u32 = 2;

/// How many words are left to copy; in a swap, how many turns of eight words.
pub const WORDS: u32 = 3;

/// The word that is copied.
pub const WORD: u32 = 4;

/// The disk's status, while a command is waited for: not 0 as long as it is under way.
pub const STATUS: u32 = 1;

/// The command that is given to the disk.
pub const ORDER: u32 = 5;

/// Whether a frame has to be filled.
pub const FILL: u32 = 12;

/// Whether the page is to be stored to.
pub const FOR_STORE: u32 = 15;

/// The page that is asked for: its number over all users, which is that of its sector.
pub const PAGE: u32 = 16;

/// The user frame at the hand: its number, from 0.
pub const VICTIM: u32 = 17;

/// The address of the frame at the hand.
pub const VICTIM_AT: u32 = 18;

/// The address of the count of the frame at the hand, before its list.
pub const LIST: u32 = 19;

/// The address of the page's entry; while a frame is emptied, and until the entry is found, that of the first entry of all.
pub const ENTRY: u32 = 20;

/// The frame that an entry names.
pub const FRAME: u32 = 21;

/// The page that the frame at the hand is written back for: its number over all users, which is that of its sector.
pub const OUT_PAGE: u32 = 21;

/// The address before the next slot of a list.
pub const SLOT: u32 = 22;

/// How many pages of a list are left.
pub const LEFT: u32 = 23;

/// Whether the entry is valid.
pub const VALID: u32 = 24;

/// Whether it isn't.
pub const ABSENT: u32 = 25;

/// The address of a user's control block.
pub const BLOCK: u32 = 31;
