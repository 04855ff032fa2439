// The faults of a file.

ghost use Rattle.std.specs.Prelude.{◌≡◌};
ghost use Rattle.boot_image.specs.Fault.{image_fault_number, image_fault_position, image_fault_which, image_fault_value};
ghost use Rattle.boot_image.specs.declared.fault.ImageFault.TheVariants.{Memory};

use std::alloc::AllocError;
use thiserror::Error;

/// Why bytes are no image. Positions are in bytes from the start of the file.
#[derive(Clone, Copy, Debug, PartialEq, Eq, Error)]
pub enum ImageFault {
    /// The first four bytes are there and are not `CVMI`.
    #[error("not an image")]
    Magic,
    /// The field or the part that begins at `at` is not whole. The source, the linked words and each user's words are a part each.
    #[error("truncated at byte {at}")]
    Truncated { at: u64 },
    /// The image ends before byte `at`, which is there.
    #[error("byte {at} follows the image")]
    Trailing { at: u64 },
    /// The word number `which` of the file, from 0, has a value that may not stand there.
    #[error("word {which} of the image is {value}, which is out of range")]
    Parameter { which: u64, value: u64 },
    /// Want of memory.
    #[error("out of memory")]
    Memory,
}

impl ImageFault {
    /// The number that is printed for it: 50 to 53, or 57 for want of memory.
    pub fn number(&self) -> u32
        ensures { result ≡ image_fault_number self.now }
    {
        match self {
            ImageFault::Magic => 50,
            ImageFault::Truncated { .. } => 51,
            ImageFault::Trailing { .. } => 52,
            ImageFault::Parameter { .. } => 53,
            ImageFault::Memory => 57,
        }
    }

    /// The byte of the file that it names, if any.
    pub fn at(&self) -> Option<u64>
        ensures { result ≡ image_fault_position self.now }
    {
        match self {
            ImageFault::Magic => None,
            ImageFault::Truncated { at } => Some(*at),
            ImageFault::Trailing { at } => Some(*at),
            ImageFault::Parameter { .. } => None,
            ImageFault::Memory => None,
        }
    }

    /// The number of the word that may not stand in its field, where that is the fault.
    pub fn which(&self) -> Option<u64>
        ensures { result ≡ image_fault_which self.now }
    {
        match self {
            ImageFault::Magic => None,
            ImageFault::Truncated { .. } => None,
            ImageFault::Trailing { .. } => None,
            ImageFault::Parameter { which, .. } => Some(*which),
            ImageFault::Memory => None,
        }
    }

    /// The number that may not stand in a field, where that is the fault.
    pub fn value(&self) -> Option<u64>
        ensures { result ≡ image_fault_value self.now }
    {
        match self {
            ImageFault::Magic => None,
            ImageFault::Truncated { .. } => None,
            ImageFault::Trailing { .. } => None,
            ImageFault::Parameter { value, .. } => Some(*value),
            ImageFault::Memory => None,
        }
    }
}

impl From<AllocError> for ImageFault {
    ghost from_gives = { λ _ e. e ≡ Memory };

    fn from(_error: AllocError) -> Self {
        ImageFault::Memory
    }
}
