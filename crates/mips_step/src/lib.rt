//! One step of the processor: over any bus, over a bus that is a memory, and over a list of words.
#![tactic(auto)]

pub mod bus;
pub mod cpu;
pub mod flat;
pub mod stepping;

pub use bus::{Bus, MemoryBus};
pub use cpu::{Cpu, Outcome};
pub use flat::{Flat, flat_step};
pub use mips_table::Cause;
pub use stepping::{step, step_in_memory};
