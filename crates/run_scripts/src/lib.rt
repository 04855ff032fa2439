//! The statement of what every run does outside (`Ends`), which `cvm_shell::run` carries for every command. What follows from it is
//! proved here, as laws of definitions.
//!
//! Each law is the contract of a function that does nothing.
#![tactic(auto)]

pub mod exit_status;
pub mod laws;
pub mod session;

pub use exit_status::Status;
pub use session::{Session, StartPoint};
