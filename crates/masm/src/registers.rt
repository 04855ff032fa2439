//! The registers that code keeps to, and the addresses that the code of a unit names.
//!
//! | Registers | What they hold |
//! |---|---|
//! | 1 | scratch of one node of an expression or one instruction of a routine |
//! | 2 | a call's answer |
//! | 3 to 7 | scratch of routines and of asm bodies |
//! | 8 to 19 | the values of expressions |
//! | 20 to 27 | arguments, and the variables of functions that keep them in registers |
//! | 28 | the address of the globals |
//! | 29 | the end of the frame |
//! | 30 | the end of the stack |
//! | 31 | the return address |

use std::vec::Vec;

/// Scratch within a node of an expression.
pub const SCRATCH: u32 = 1;

/// A call's answer.
pub const ANSWER: u32 = layer_map::ANSWER;

/// The first register of expressions.
pub const EXPRESSIONS: u32 = 8;

/// How many registers expressions have: 8 to 19.
pub const EXPRESSION_COUNT: u32 = 12;

/// The register of the first argument.
pub const ARGUMENTS: u32 = layer_map::ARGUMENTS;

/// How many registers arguments have: 20 to 27.
pub const ARGUMENT_COUNT: u32 = 8;

/// The address of the globals.
pub const GLOBALS: u32 = layer_map::GLOBALS;

/// The end of the frame: the address of the word after it.
pub const FRAME_END: u32 = layer_map::FRAME_END;

/// The end of the stack: the address of the word after it.
pub const STACK_END: u32 = layer_map::STACK_END;

/// The return address.
pub const RETURN: u32 = layer_map::RETURN;

/// First addresses, in bytes, of what the code of a unit names. Each is a multiple of 4 below 0x10000000: contracts say so by `AreCodeAddresses`.
#[derive(Drop)]
pub struct CodeAddresses {
    /// The globals.
    pub globals: u32,
    /// The exits of a use of null, an index out of bounds, a division by zero and a want of stack.
    pub faults: [u32; 4],
    /// The routine that multiplies.
    pub multiply: u32,
    /// The routine that divides.
    pub divide: u32,
    /// The routine that gives the remainder.
    pub remainder: u32,
    /// The routine that takes a new object from the heap.
    pub new_object: u32,
    /// The functions, by their numbers.
    pub functions: Vec<u32>,
    /// The primitives, by their numbers.
    pub primitives: Vec<u32>,
}
