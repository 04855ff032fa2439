// Why a report is broken off.

ghost use Rattle.std.specs.Prelude.{◌≡◌};
ghost use Rattle.boot_report.specs.declared.fault.ReportFault.TheVariants.{Disk as AtDisk, Sink as AtSink};

use cvm_outside::{DiskFault, SinkFault};
use thiserror::Error;

/// Why a report is broken off.
#[derive(Clone, Copy, Debug, PartialEq, Eq, Error)]
pub enum ReportFault {
    /// The disk failed.
    #[error("the disk failed")]
    Disk,
    /// The sink failed.
    #[error("the sink failed")]
    Sink,
}

impl From<DiskFault> for ReportFault {
    ghost from_gives = { λ _ e. e ≡ AtDisk };

    fn from(_: DiskFault) -> Self {
        ReportFault::Disk
    }
}

impl From<SinkFault> for ReportFault {
    ghost from_gives = { λ _ e. e ≡ AtSink };

    fn from(_: SinkFault) -> Self {
        ReportFault::Sink
    }
}
