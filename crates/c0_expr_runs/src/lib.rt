//! The code of C0's expressions comes to what they mean.
//!
//! The definitions are in `specs/`. Each law is the contract of a function that does nothing.
#![tactic(auto)]

pub mod laws;
