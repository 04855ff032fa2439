//! The instruction table: the words of the MIPS32 instructions of this project's processor, and what each does. The physical
//! machine and the flat machine that run them, and the run of code, stand here as definitions, with their laws.
//!
//! Source of the words and of the arithmetic: MIPS32 Architecture. There is no delay slot.
#![tactic(auto)]

pub mod arith;
pub mod cause;
pub mod console;
pub mod decoding;
pub mod effect;
pub mod encoding;
pub mod fields;
pub mod inst;
mod instruction_rows;
pub mod runs;
pub mod special;
pub mod table;

pub use cause::Cause;
pub use console::LOG_ROOM;
pub use decoding::decode;
pub use effect::{Effect, effect_of};
pub use encoding::encode;
pub use inst::Inst;
pub use special::{
    ECA, EDATA, EMODE, EPC, ESR, IS_PROTECTED, IS_VALID, MODE, PROTECTED_BIT, PTL, PTO, SR,
    VALID_BIT,
};
pub use table::{Row, Table, mips32, mnemonic_of};
