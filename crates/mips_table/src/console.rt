//! The console, as far as its size is concerned.

/// The most words that the console's log has: a word for a log that is full is lost.
pub const LOG_ROOM: u32 = 4096;
