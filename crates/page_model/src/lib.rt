//! Paging as the layer does it: entries, counts, frames and sectors, and what they show of the users' pages.
//!
//! The crate holds definitions and their laws; each law is the contract of a function that does nothing. They speak of no code.
#![tactic(auto)]

pub mod laws;
