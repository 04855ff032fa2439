//! How many words the structs of a unit have, and which of them hold themselves: found along an order of the structs, whatever they name.
//!
//! The order is that of a walk over any graph (`walk`), which tells which nodes lead to themselves.
#![tactic(auto)]

mod fields;
pub mod sizes;
mod unit;
pub mod walk;

pub use sizes::{StructSizes, struct_sizes};
pub use unit::struct_numbers;
pub use walk::{Order, edges_of, order_of};
