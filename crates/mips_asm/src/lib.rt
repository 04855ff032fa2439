//! The assembler: texts to words and back.
#![tactic(auto)]

mod assembly;
mod fault;
mod form;
mod form_table;
mod instruction_rows;
mod line;
mod listing;
mod number;
mod operand;
mod pass;

pub use assembly::assemble;
pub use fault::AsmFault;
pub use listing::disassemble;
