//! The code of asm functions: the arguments go to the registers 4 to 7, the other registers of the body become 0, and then the body's
//! words run. The test of the stack before it and the return behind it are those of every function.
#![tactic(auto)]

pub mod body;
pub mod laws;

pub use body::{emit_arguments, emit_asm};
