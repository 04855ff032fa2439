//! Numbers as the printed text and the text formats spell them, and the cutting
//! of a text into parts.
#![tactic(auto)]

pub mod cutting;
pub mod lines;
pub mod read;
pub mod write;

pub use cutting::{cut, trim, trim_start};
pub use lines::{first_line, whole_number, whole_numbers_are_spelled};
pub use read::{read_decimal, read_numbers_are_spelled, spelled_numbers_are_read};
pub use write::{decimal, decimal_u64, hex8};
