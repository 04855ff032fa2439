// What a step was.

use mips_table::Cause;

/// What a step of the machine was.
#[derive(Clone, Copy, Debug, PartialEq, Eq)]
pub enum Event {
    /// An instruction took place.
    Ran,
    /// An interrupt was taken, with this cause.
    Taken(Cause),
    /// An instruction wrote this word to the power port, and the machine is off from now on.
    Power(u32),
    /// The machine was off, with this power word, and the step changed nothing.
    Off(u32),
}
