// What the desks append of numbers: a name, and the number behind it.
use cvm_text::{decimal_u64, hex8};
use std::alloc::AllocError;

/// Appends a name and a word.
pub fn tell(told: &mut String, name: &str, word: u32) -> Result<(), AllocError> {
    told.push_str(name)?;
    told.push_str(" ")?;
    told.push_str(hex8(word).as_str())
}

/// Appends a name and a number.
pub fn count(told: &mut String, name: &str, number: u64) -> Result<(), AllocError> {
    told.push_str(name)?;
    told.push_str(" ")?;
    told.push_str(decimal_u64(number).as_str())
}
