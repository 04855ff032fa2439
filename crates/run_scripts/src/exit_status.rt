// How a command ended.
ghost use Rattle.std.specs.Prelude.{◌≡◌};
ghost use Rattle.run_scripts.specs.ExitStatus.{code_of};

/// How a command ended, in the order of the codes 0 to 8.
#[derive(Clone, Copy, Debug, PartialEq, Eq)]
pub enum Status {
    /// The work is done.
    Done,
    /// The words match no form of a command.
    Words,
    /// The input has a named fault.
    Refused,
    /// The kernel met a fault.
    KernelFault,
    /// The steps were spent before the wanted turns were complete.
    StepLimit,
    /// The disk failed.
    Disk,
    /// The shelf of files failed.
    Shelf,
    /// The sink of text failed.
    Sink,
    /// There was no memory.
    Memory,
}

impl Status {
    /// The exit code, 0 to 8.
    pub fn code(&self) -> u8
        ensures { result ≡ code_of self.now }
    {
        match self {
            Status::Done => 0,
            Status::Words => 1,
            Status::Refused => 2,
            Status::KernelFault => 3,
            Status::StepLimit => 4,
            Status::Disk => 5,
            Status::Shelf => 6,
            Status::Sink => 7,
            Status::Memory => 8,
        }
    }
}
