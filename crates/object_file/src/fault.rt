// The faults of a file.

ghost use Rattle.std.specs.Prelude.{◌≡◌};
ghost use Rattle.object_file.specs.Answer.{object_fault_number, object_fault_position, object_fault_value};
ghost use Rattle.object_file.specs.declared.fault.ObjectFault.TheVariants.{Memory};

use std::alloc::AllocError;
use thiserror::Error;

/// Why bytes are no object. Positions are in bytes from the start of the file.
#[derive(Clone, Copy, Debug, PartialEq, Eq, Error)]
pub enum ObjectFault {
    /// The first four bytes are there and are not `CVMO`.
    #[error("not an object file")]
    Magic,
    /// The field, the source or the words that begin at `at` are not whole.
    #[error("truncated at byte {at}")]
    Truncated { at: u64 },
    /// The object ends before byte `at`, which is there.
    #[error("byte {at} follows the object")]
    Trailing { at: u64 },
    /// The field that begins at `at` has a value that may not stand there.
    #[error("the field at byte {at} is {value}, which is out of range")]
    Field { at: u64, value: u64 },
    /// Want of memory.
    #[error("out of memory")]
    Memory,
}

impl ObjectFault {
    /// The number that is printed for it: 40 to 43, or 44 for want of memory.
    pub fn number(&self) -> u32
        ensures { result ≡ object_fault_number self.now }
    {
        match self {
            ObjectFault::Magic => 40,
            ObjectFault::Truncated { .. } => 41,
            ObjectFault::Trailing { .. } => 42,
            ObjectFault::Field { .. } => 43,
            ObjectFault::Memory => 44,
        }
    }

    /// The byte of the file that it names, if any.
    pub fn at(&self) -> Option<u64>
        ensures { result ≡ object_fault_position self.now }
    {
        match self {
            ObjectFault::Magic => None,
            ObjectFault::Truncated { at } => Some(*at),
            ObjectFault::Trailing { at } => Some(*at),
            ObjectFault::Field { at, .. } => Some(*at),
            ObjectFault::Memory => None,
        }
    }

    /// The number that may not stand in a field, where that is the fault.
    pub fn value(&self) -> Option<u64>
        ensures { result ≡ object_fault_value self.now }
    {
        match self {
            ObjectFault::Magic => None,
            ObjectFault::Truncated { .. } => None,
            ObjectFault::Trailing { .. } => None,
            ObjectFault::Field { value, .. } => Some(*value),
            ObjectFault::Memory => None,
        }
    }
}

impl From<AllocError> for ObjectFault {
    ghost from_gives = { λ _ e. e ≡ Memory };

    fn from(_error: AllocError) -> Self {
        ObjectFault::Memory
    }
}
