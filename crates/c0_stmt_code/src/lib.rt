//! The code of statements, of calls and of functions, how long it is, and that it is in range.
#![tactic(auto)]

mod acts;
mod behind;
mod emit_laws;
mod function;
pub mod laws;
mod live;
mod prologue;
pub mod sizes;
mod statement;
pub mod typed_laws;

pub use function::emit_function;
