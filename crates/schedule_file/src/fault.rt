// The faults of a text.

ghost use Rattle.std.specs.Prelude.{◌≡◌};
ghost use Rattle.schedule_file.specs.Fault.{schedule_fault_line, schedule_fault_number, schedule_fault_value};

use thiserror::Error;

/// Why a text is no schedule. Lines are counted from 1.
#[derive(Clone, Copy, Debug, PartialEq, Eq, Error)]
pub enum ScheduleFault {
    /// The line is none of `line T J`, `busy N B` and `input W`.
    #[error("line {line}: no row of a schedule")]
    BadLine { line: u64 },
    /// The row comes too late: a `line` row before it has a greater step, or a
    /// `busy` row before it has the same command or a greater one.
    #[error("line {line}: out of order")]
    Order { line: u64 },
    /// A line of the machine above 7, a busy time above 65,535 steps, or an
    /// input word above 4,294,967,295.
    #[error("line {line}: {value} is out of range")]
    Range { line: u64, value: u64 },
    /// The row has the 4,097th input word.
    #[error("line {line}: too many input words")]
    TooManyInputs { line: u64 },
    /// Want of memory.
    #[error("out of memory")]
    Memory,
}

impl ScheduleFault {
    /// The number that is printed for it: 70 to 72 and 74, or 73 for want of memory.
    pub fn number(&self) -> u32
        ensures { result ≡ schedule_fault_number self.now }
    {
        match self {
            ScheduleFault::BadLine { .. } => 70,
            ScheduleFault::Order { .. } => 71,
            ScheduleFault::Range { .. } => 72,
            ScheduleFault::Memory => 73,
            ScheduleFault::TooManyInputs { .. } => 74,
        }
    }

    /// The line that it names, if any.
    pub fn line(&self) -> Option<u64>
        ensures { result ≡ schedule_fault_line self.now }
    {
        match self {
            ScheduleFault::BadLine { line } => Some(*line),
            ScheduleFault::Order { line } => Some(*line),
            ScheduleFault::Range { line, .. } => Some(*line),
            ScheduleFault::TooManyInputs { line } => Some(*line),
            ScheduleFault::Memory => None,
        }
    }

    /// The number that is out of range, where that is the fault.
    pub fn value(&self) -> Option<u64>
        ensures { result ≡ schedule_fault_value self.now }
    {
        match self {
            ScheduleFault::BadLine { .. } => None,
            ScheduleFault::Order { .. } => None,
            ScheduleFault::Range { value, .. } => Some(*value),
            ScheduleFault::TooManyInputs { .. } => None,
            ScheduleFault::Memory => None,
        }
    }
}
