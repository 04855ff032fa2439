// Why bytes are no saved machine that can be taken up.

ghost use Rattle.std.specs.Prelude.{◌≡◌};
ghost use Rattle.saved_file.specs.Fault.{save_fault_number, save_fault_fields};
ghost use Rattle.saved_file.specs.declared.fault.SaveFault.TheVariants.{Memory};

use arrayvec::ArrayVec;
use std::alloc::AllocError;
use thiserror::Error;

/// Why a file is not taken up, or why none is made. Places in bytes are called `at`, words are counted from 0.
#[derive(Clone, Copy, Debug, PartialEq, Eq, Error)]
pub enum SaveFault {
    /// The first four bytes are there and are not `CVMS`.
    #[error("not a saved machine")]
    Magic,
    /// The word that begins at byte `at` is not whole.
    #[error("truncated at byte {at}")]
    Truncated {
        at: u64,
    },
    /// The saved machine ends before byte `at`, which is there.
    #[error("byte {at} follows the saved machine")]
    Trailing {
        at: u64,
    },
    /// The field that begins with word `position` of the file has a value that may not stand there.
    #[error("word {position} of the saved machine is {value}, which is out of range")]
    Field {
        position: u64,
        value: u64,
    },
    /// The word number `position` of the saved memory is `stored`, where the image has `made`, and it is not one that a run may change.
    #[error("word {position} of the saved memory is {stored}, and the image has {made}")]
    ForgedWord {
        position: u64,
        stored: u32,
        made: u32,
    },
    /// The control block of `user` tells more pages than a user may have.
    #[error("user {user} has {pages} pages, which is too many")]
    SizeTooLarge {
        user: u32,
        pages: u32,
    },
    /// The saved machine has completed more turns than are wanted.
    #[error("{saved} turns are done, and {wanted} are wanted")]
    TurnsDone {
        saved: u32,
        wanted: u32,
    },
    /// A saved machine with a full log has so many bytes, which is more than a file may have.
    #[error("a saved machine would have {bytes} bytes, which is too many")]
    SaveTooLarge {
        bytes: u64,
    },
    /// Want of memory.
    #[error("out of memory")]
    Memory,
}

impl SaveFault {
    /// The number that is printed for it: 100 to 107, or 108 for want of memory.
    pub fn number(&self) -> u32
        ensures { result ≡ save_fault_number self.now }
    {
        match self {
            SaveFault::Magic => 100,
            SaveFault::Truncated { .. } => 101,
            SaveFault::Trailing { .. } => 102,
            SaveFault::Field { .. } => 103,
            SaveFault::ForgedWord { .. } => 104,
            SaveFault::SizeTooLarge { .. } => 105,
            SaveFault::TurnsDone { .. } => 106,
            SaveFault::SaveTooLarge { .. } => 107,
            SaveFault::Memory => 108,
        }
    }

    /// The numbers that are printed behind it.
    pub fn fields(&self) -> ArrayVec<u64, 3>
        ensures { result.items ≡ save_fault_fields self.now }
    {
        let mut fields = ArrayVec::new();
        match self {
            SaveFault::Magic | SaveFault::Memory => {}
            SaveFault::Truncated { at } | SaveFault::Trailing { at } => fields.push(*at),
            SaveFault::Field { position, value } => {
                fields.push(*position);
                fields.push(*value);
            }
            SaveFault::ForgedWord {
                position,
                stored,
                made,
            } => {
                fields.push(*position);
                fields.push(u64::from(*stored));
                fields.push(u64::from(*made));
            }
            SaveFault::SizeTooLarge { user, pages } => {
                fields.push(u64::from(*user));
                fields.push(u64::from(*pages));
            }
            SaveFault::TurnsDone { saved, wanted } => {
                fields.push(u64::from(*saved));
                fields.push(u64::from(*wanted));
            }
            SaveFault::SaveTooLarge { bytes } => fields.push(*bytes),
        }
        fields
    }
}

impl From<AllocError> for SaveFault {
    ghost from_gives = { λ _ e. e ≡ Memory };

    fn from(_error: AllocError) -> Self {
        SaveFault::Memory
    }
}
