//! Blocks of machine code, with the laws of their runs: straight code, a body under a condition, a loop and a routine.
//!
//! A [`Block`] is machine code that stands anywhere: it is entered at its first word and left by its end. Contracts see it as
//! the list of its words.
//!
//! The machine has no delay slot: the instruction behind a jump, or behind a branch that is taken, is not run.
#![tactic(auto)]

pub mod addresses;
mod assembly;
mod block;
pub mod causes;
pub mod copying;
pub mod laws;
pub mod registers;
pub mod roles;
pub mod waiting;

pub use assembly::{extend, load_immediate};
pub use block::{Block, Code};
pub use mips_table::Inst;
