// A dispatch, as it is told and printed.

use crate::kernel_fault::KernelFault;

/// Who is next after a dispatch.
#[derive(Clone, Copy, Debug, PartialEq, Eq)]
pub enum Next {
    /// This user, from 1.
    User(u32),
    /// Nobody: the run ends.
    Halt,
    /// Nobody: the kernel met a fault, which ends the run.
    Fault(KernelFault),
}

/// A dispatch of a turn.
#[derive(Clone, Copy, Debug, PartialEq, Eq)]
pub struct Row {
    /// The turn, from 0.
    pub turn: u64,
    /// The cause of its interrupt.
    pub cause: u32,
    /// What the cause concerns.
    pub edata: u32,
    /// The user that was current, 0 in turn 0.
    pub user: u32,
    /// Who is next.
    pub next: Next,
}
