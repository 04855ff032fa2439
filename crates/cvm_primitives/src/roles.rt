// What the primitives keep in registers, by name, beside the names that the whole layer has (masm::roles). Arguments come in 20 to 24.
// A user's number less 1 stays in T0 from the test of the number up to FIND_SIZE, FIND_WORD and `first_page`, which ask for it.

/// The user whose memory, size or registers are asked for.
pub const USER: u32 = 20;

/// An address in its memory, in bytes.
pub const ADDRESS: u32 = 21;

/// The number of one of its registers, or 32 for its pc.
pub const NUMBER: u32 = 21;

/// The size in pages that it is to have.
pub const ASKED_SIZE: u32 = 21;

/// The word that is written.
pub const VALUE: u32 = 22;

/// The user whose memory is copied to.
pub const TARGET_USER: u32 = 22;

/// The address there, in bytes.
pub const TARGET_ADDRESS: u32 = 23;

/// How many words are copied.
pub const LENGTH: u32 = 24;

/// Whether what is asked can be done: an address is a multiple of 4, a size isn't too large, a frame's list has a free slot.
pub const GOOD: u32 = 12;

/// The number of the word at ADDRESS among those of its user.
pub const FIRST_WORD: u32 = 12;

/// A word's number: those of all users are counted through, 1,024 a page.
pub const WORD_NUMBER: u32 = 26;

/// The word that is written, while its page comes in.
pub const KEPT: u32 = 27;

/// The number of the next word that is copied.
pub const SOURCE_WORD: u32 = 26;

/// The number of the word that it is copied to.
pub const TARGET_WORD: u32 = 27;

/// How many words are left to copy.
pub const LEFT_WORDS: u32 = 14;

/// How many of them are copied at once: up to the end of the source's and of the target's page.
pub const PIECE: u32 = 13;

/// Whether a piece is copied word by word, and not by sharing its frame.
pub const BY_WORDS: u32 = 15;

/// The new size of a memory, in pages.
pub const SIZE: u32 = 26;

/// Its old size.
pub const OLD_SIZE: u32 = 14;

/// How many pages are left to cut off or to add.
pub const LEFT_PAGES: u32 = 14;

/// The number of the page behind the last one, by the new size.
pub const NEW_END: u32 = 27;

/// The number of the page behind the last one, by the old size.
pub const OLD_END: u32 = 13;

/// What a fresh page's entry is.
pub const FRESH: u32 = 13;
