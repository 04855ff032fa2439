// Limits of sizes, in words.

/// How many words a type has at most.
pub const MAX_TYPE_WORDS: u32 = 1_048_576;

/// One word more: more words than these aren't told apart.
pub const WORDS_CAP: u32 = MAX_TYPE_WORDS + 1;
