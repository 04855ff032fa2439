// The faults of these files.

ghost use Rattle.std.specs.Prelude.{◌≡◌};
ghost use Rattle.system_files.specs.Fault.{file_fault_number, file_fault_fields};
ghost use Rattle.system_files.specs.declared.fault.FileFault.TheVariants.{Memory};

use arrayvec::ArrayVec;
use std::alloc::AllocError;
use thiserror::Error;

/// Why a file holds no parameters, or no words. Lines and users are counted from 1.
#[derive(Clone, Copy, Debug, PartialEq, Eq, Error)]
pub enum FileFault {
    /// A parameter is out of its range: 1 the pages, 2 the frames, 3 the heap, 4 the stack.
    #[error("parameter {which} is {value}, which is out of range")]
    Parameter { which: u32, value: u64 },
    /// Want of memory.
    #[error("out of memory")]
    Memory,
    /// The length of a user's file, in bytes, is no multiple of 4.
    #[error("the file of user {user} has {bytes} bytes, which are no whole words")]
    UserTorn { user: u64, bytes: u64 },
    /// The line is not the one that stands there, or it is missing, or it is a fifth one.
    #[error("line {line}: not the parameter that stands there")]
    BadParams { line: u32 },
}

impl FileFault {
    /// The number that is printed for it: 62, 65 and 66, or 64 for want of memory.
    pub fn number(&self) -> u32
        ensures { result ≡ file_fault_number self.now }
    {
        match self {
            FileFault::Parameter { .. } => 62,
            FileFault::Memory => 64,
            FileFault::UserTorn { .. } => 65,
            FileFault::BadParams { .. } => 66,
        }
    }

    /// The numbers that are printed behind it.
    pub fn fields(&self) -> ArrayVec<u64, 2>
        ensures { result.items ≡ file_fault_fields self.now }
    {
        let mut fields = ArrayVec::new();
        match self {
            FileFault::Parameter { which, value } => {
                fields.push(u64::from(*which));
                fields.push(*value);
            }
            FileFault::Memory => {}
            FileFault::UserTorn { user, bytes } => {
                fields.push(*user);
                fields.push(*bytes);
            }
            FileFault::BadParams { line } => fields.push(u64::from(*line)),
        }
        fields
    }
}

impl From<AllocError> for FileFault {
    ghost from_gives = { λ _ e. e ≡ Memory };

    fn from(_error: AllocError) -> Self {
        FileFault::Memory
    }
}
