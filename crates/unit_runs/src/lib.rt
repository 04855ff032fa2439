//! The run of a kernel's code over any layer: what a dispatch means is what the machine does from the entry of `dispatch` on.
//!
//! The definitions are in `specs/`. Each law is the contract of a function that does nothing.
#![tactic(auto)]

pub mod follows;
pub mod laws;
