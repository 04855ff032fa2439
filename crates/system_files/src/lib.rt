//! The files of a system that isn't linked yet: its parameters, a text, and the words of its users, a file each.
//!
//! Parameters are four lines, in this order, with one space each and decimals without leading zeros; the last LF is optional:
//!
//! - `pages Q`: the most pages of a user, 1 to 1,024;
//! - `frames F`: the number of user frames, 2 to 16,384;
//! - `heap H`: the words of the kernel's heap, at most 1,048,576;
//! - `stack S`: the words of the kernel's stack, 64 to 262,144.
//!
//! A user's file is its words and nothing else, 32 bits each and little-endian.
#![tactic(auto)]

mod fault;
mod params;
mod user;

pub use fault::FileFault;
pub use params::{parameters_are_their_spellings, params_of, texts_have_one_answer};
pub use user::user_words;
