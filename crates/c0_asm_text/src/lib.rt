//! What the text of an asm function says: the words of its instructions, and the first line that isn't allowed.
#![tactic(auto)]

pub mod line;
pub mod text;

pub use text::{AsmReading, read_asm, words_are_allowed};
