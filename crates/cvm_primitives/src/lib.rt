//! The ten primitives, as machine code: `vm_word`, `vm_put`, `vm_resize` and `vm_copy` on memory, and those that use no page, `vm_get`,
//! `vm_set`, `vm_size`, `con_put`, `con_get` and `con_left`.
//!
//! Arguments stand in registers 20 to 24, and the answer comes into register 2. Each argument is tested before anything changes. Registers 28
//! to 31 stay; of the others, those that use no page change only 2 and 8 to 11.
#![tactic(auto)]

mod accessing;
mod copy_parts;
mod copying;
pub mod laws;
mod parts;
mod registers;
mod resizing;
mod roles;

pub use accessing::{vm_put, vm_word};
pub use copying::vm_copy;
pub use registers::{con_get, con_left, con_put, vm_get, vm_set, vm_size};
pub use resizing::vm_resize;
