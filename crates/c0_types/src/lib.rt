//! The check of the C0 unit of a kernel or a user program: the unit with its names resolved, or the fault that comes first; and the front of
//! C0, which reads a source and checks it.
#![tactic(auto)]

pub mod bodies;
pub mod decls;
pub mod fault;
pub mod headings;
pub mod laws;
mod source;
mod source_fault;
pub mod space;
pub mod structs;
pub mod unit;

pub use fault::TypeFault;
pub use source::{read_program, read_unit};
pub use source_fault::SourceFault;
pub use unit::{check, check_user};
