// Why a step traps.

/// The causes of interrupts. The number of each is its place here, from 0 to 8; where several stand together, the least
/// comes.
#[derive(Clone, Copy, Debug, PartialEq, Eq)]
pub enum Cause {
    /// The reset latch is set.
    Reset,
    /// A line was raised, and external interrupts are taken.
    External,
    /// The pc is no multiple of 4.
    FetchAlign,
    /// Translation refuses the pc.
    FetchFault,
    /// The word is no instruction, or isn't allowed in this mode.
    Illegal,
    /// A signed sum or difference doesn't fit a word.
    Overflow,
    /// The instruction is `syscall`.
    Syscall,
    /// The address of a load or a store is no multiple of 4.
    DataAlign,
    /// Translation refuses the address of a load or a store.
    DataFault,
}
