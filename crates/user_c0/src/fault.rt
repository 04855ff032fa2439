// Why a user program has no image.

ghost use Rattle.std.specs.Prelude.{◌≡◌};
ghost use Rattle.user_c0.specs.Compiled.{fault_fields, fault_number};

use arrayvec::ArrayVec;
use thiserror::Error;

/// Why a user program has no image.
#[derive(Clone, Copy, Debug, PartialEq, Eq, Error)]
pub enum UserFault {
    /// The image would have so many words, more than 65,536.
    #[error("the image has {words} words, more than 65536")]
    TooLarge { words: u32 },
    /// Want of memory.
    #[error("out of memory")]
    Memory,
}

impl UserFault {
    /// The number that is printed for it: 37, or 38 for want of memory.
    pub fn number(&self) -> u32
        ensures { result ≡ fault_number self.now }
    {
        match self {
            UserFault::TooLarge { .. } => 37,
            UserFault::Memory => 38,
        }
    }

    /// The numbers that are printed behind it.
    pub fn fields(&self) -> ArrayVec<u64, 4>
        ensures { result.items ≡ fault_fields self.now }
    {
        let mut fields = ArrayVec::new();
        if let UserFault::TooLarge { words } = self {
            fields.push(u64::from(*words));
        }
        fields
    }
}
