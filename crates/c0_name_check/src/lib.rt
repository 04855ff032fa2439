//! The names and the declared types of a C0 unit: which number a name has, which names are set twice, which faults a declared type has, and
//! the least of the faults that were met.
#![tactic(auto)]

pub mod met;
pub mod names;
pub mod spaces;
pub mod types;
