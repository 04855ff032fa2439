// Why a source has no checked unit.

ghost use Rattle.c0_types.specs.declared.source_fault.SourceFault.TheVariants.{Reading, Typing};
ghost use Rattle.std.specs.Prelude.{◌≡◌};

use crate::fault::TypeFault;
use c0_parser::ReadFault;
use thiserror::Error;

/// Why a source has no checked unit: it has no tree, or its tree is not typed. Want of memory is one of the faults of either.
#[derive(Clone, Copy, Debug, PartialEq, Eq, Error)]
pub enum SourceFault {
    /// The source has no tree.
    #[error("{0}")]
    Reading(ReadFault),
    /// The source has a tree, which is not typed.
    #[error("{0}")]
    Typing(TypeFault),
}

impl From<ReadFault> for SourceFault {
    ghost from_gives = { λ f e. e ≡ Reading f };

    fn from(fault: ReadFault) -> Self {
        SourceFault::Reading(fault)
    }
}

impl From<TypeFault> for SourceFault {
    ghost from_gives = { λ f e. e ≡ Typing f };

    fn from(fault: TypeFault) -> Self {
        SourceFault::Typing(fault)
    }
}
