//! The code of a whole unit of C0: what `compile` answers for a kernel, and `compile_flat` for a user program.
#![tactic(auto)]

mod functions;
mod globals;
pub mod laws;
mod placing;
mod typed;
mod whole;

pub use globals::global_words;
pub use whole::{compile, compile_flat};
