//! The code of C0's expressions, how long it is, and that it is in range.
#![tactic(auto)]

mod address;
mod constant;
mod element;
mod facts;
mod fault_exits;
mod known;
pub mod laws;
mod node;
pub mod node_laws;
mod operator;
mod patching;
mod register;
mod setting;
mod test;
mod word;

pub use address::{Access, Address, emit_access};
pub use constant::emit_constant;
pub use facts::Facts;
pub use fault_exits::FaultExits;
pub use known::{frame_bytes, register_place, register_standing};
pub use node::{emit_operand, emit_place, emit_value};
pub use patching::{patch, patch_all};
pub use register::Register;
pub use setting::CodeSetting;
pub use test::emit_test;
pub use word::emit;
