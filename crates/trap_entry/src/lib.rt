//! The way into the kernel and out of it: the handler of interrupts, what follows an answer of `dispatch`, and the exits of faults.
//!
//! The laws are on runs of code, each up to the instruction that leaves the layer's code: an eret, a store to the power port, or the jump to
//! the kernel.
#![tactic(auto)]

mod handler;
mod laws;
mod leaving;

pub use handler::handle_interrupts;
pub use laws::{
    a_fault_is_handled, an_exit_comes, the_kernel_is_entered, the_kernel_is_entered_first,
    the_kernel_is_left_badly, the_kernel_is_left_for_a_user, the_kernel_is_left_for_good,
};
pub use leaving::{BAD_USER, act_on_answer, exit_with};
