//! Object files: a source and the words that it was compiled to, kept
//! together.
//!
//! A file is, with no padding, words being 32 bits and little-endian:
//!
//! - the four bytes `CVMO` (43 56 4d 4f);
//! - the word 1;
//! - the length of the source in bytes, n, at most 1,048,576;
//! - the number of words, k, at most 4,177,920;
//! - n bytes of source;
//! - k words.
#![tactic(auto)]

mod fault;
mod object;
mod reading;
mod writing;

pub use fault::ObjectFault;
pub use object::{MOST_SOURCE, MOST_WORDS, Object};
pub use reading::{bytes_have_one_answer, read};
pub use writing::write;
