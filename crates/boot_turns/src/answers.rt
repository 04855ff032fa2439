// What is printed of a run, and what its calls answer.

ghost use Rattle.std.specs.Prelude.{◌≡◌};
ghost use Rattle.boot_turns.specs.declared.answers.RunFault.TheVariants.{Disk as AtDisk, Sink as AtSink};

use cvm_model::Row;
use cvm_outside::{DiskFault, SinkFault};
use thiserror::Error;

/// What is printed of a run.
#[derive(Clone, Copy, Debug, PartialEq, Eq)]
pub enum View {
    /// The rows of the dispatches, and a report of all users.
    Boot,
    /// The journal of this user, from 1, and a report of this user alone.
    Trace(u32),
}

/// What a turn was.
#[derive(Clone, Copy, Debug, PartialEq, Eq)]
pub enum Turn {
    /// An untrapped step of this user, from 1.
    Step(u32),
    /// A dispatch.
    Dispatch(Row),
    /// None: the run had ended.
    Over,
}

/// Why a run doesn't go on.
#[derive(Clone, Copy, Debug, PartialEq, Eq, Error)]
pub enum RunFault {
    /// The budget of steps was spent, and the turn isn't complete.
    #[error("the steps are spent, and the turn isn't complete")]
    StepLimit,
    /// The disk failed.
    #[error("the disk failed")]
    Disk,
    /// The sink failed.
    #[error("the sink failed")]
    Sink,
}

impl From<DiskFault> for RunFault {
    ghost from_gives = { λ _ e. e ≡ AtDisk };

    fn from(_: DiskFault) -> Self {
        RunFault::Disk
    }
}

impl From<SinkFault> for RunFault {
    ghost from_gives = { λ _ e. e ≡ AtSink };

    fn from(_: SinkFault) -> Self {
        RunFault::Sink
    }
}
