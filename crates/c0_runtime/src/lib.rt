//! The code that each kernel has beside its functions: the entry, at which the layer calls `dispatch`, and the routines that
//! [`masm::registers::CodeAddresses`] names.
//!
//! | Routine | Takes | Answers in register 2 | Changes |
//! |---|---|---|---|
//! | `new` | the object's words in register 2 | its address, or 0 where the heap has no room | registers 1 to 5 |
//! | multiply | registers 20 and 21 | the product | registers 2, hi and lo |
//! | divide | registers 20 and 21 | the quotient, rounded towards zero | registers 2, hi and lo |
//! | remainder | registers 20 and 21 | what the quotient leaves | registers 2, hi and lo |
//!
//! Each is entered with its return address in register 31. Where the divisor is 0 the code goes on at the exit of a division by zero.
#![tactic(auto)]

pub mod entry;
pub mod laws;
mod new_object;
pub mod runtime;

pub use entry::emit_entry;
pub use runtime::emit_runtime;
