//! Boot images: a kernel's source, the parameters of the system, and the words of its users, kept together.
//!
//! A file is, with no padding, words being 32 bits and little-endian:
//!
//! - the four bytes `CVMI` (43 56 4d 49);
//! - the form, a word: 1, 2 or 3.
//!
//! Form 1 carries a source alone. It has no users, and its parameters are 1 page, 2 frames, a heap and a stack of 1,024 words each:
//!
//! - the length of the source in bytes, n, at most 1,048,576;
//! - n bytes of source.
//!
//! Form 3 carries a whole system:
//!
//! - the number of users, U, at most 64;
//! - the most pages of a user, Q, 1 to 1,024;
//! - the number of frames, 2 to 16,384;
//! - the words of the heap, at most 1,048,576;
//! - the words of the stack, 64 to 262,144;
//! - the length of the source in bytes, n, at most 1,048,576;
//! - the number of linked words, k, 16,384 to 4,194,304;
//! - the number of words of each of the U users, at most 65,536 and at most 1,024 * Q;
//! - n bytes of source;
//! - k linked words;
//! - the words of each user.
//!
//! Form 2 is what carried a whole system before form 3 did. It is laid out as form 3, with at most 16 users of at most 256 pages. It is
//! written as the others are, and is read by a function of its own alone.
#![tactic(auto)]

mod fault;
mod image;
mod reading;
mod writing;

pub use fault::ImageFault;
pub use image::Image;
pub use reading::{
    bytes_have_one_answer, images_are_their_spellings, old_bytes_have_one_answer,
    old_images_are_their_spellings, read, read_old,
};
pub use writing::write;
