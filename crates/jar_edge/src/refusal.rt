//! The refusals of a whole read.

use crate::source::Failed;
use std::alloc::AllocError;
use std::error::Error;
use std::fmt;

/// Why a whole read was refused, in the order in which the refusals apply.
///
/// This jar's own rule: docs/DEFINITIONS.md.
#[derive(Clone, Copy, Debug, PartialEq, Eq)]
pub enum ReadRefusal {
    /// A read failed.
    ReadFault,
    /// One byte more than the limit was read.
    TooLarge,
    /// Memory was wanting.
    NoMemory,
}

impl fmt::Display for ReadRefusal {
    fn fmt<W: fmt::Write>(&self, f: &mut fmt::Formatter<W>) -> fmt::Result {
        match self {
            ReadRefusal::ReadFault => write!(f, "a read failed"),
            ReadRefusal::TooLarge => write!(f, "the input is too large"),
            ReadRefusal::NoMemory => write!(f, "out of memory"),
        }
    }
}

impl Error for ReadRefusal {}

impl From<Failed> for ReadRefusal {
    ghost use Rattle.std.specs.Prelude.{◌≡◌};
    ghost use Rattle.jar_edge.specs.declared.refusal.ReadRefusal.TheVariants.{ReadFault};

    ghost from_gives = { λ _ refusal. refusal ≡ ReadFault };

    fn from(_error: Failed) -> ReadRefusal {
        ReadRefusal::ReadFault
    }
}

impl From<AllocError> for ReadRefusal {
    ghost use Rattle.std.specs.Prelude.{◌≡◌};
    ghost use Rattle.jar_edge.specs.declared.refusal.ReadRefusal.TheVariants.{NoMemory};

    ghost from_gives = { λ _ refusal. refusal ≡ NoMemory };

    fn from(_error: AllocError) -> ReadRefusal {
        ReadRefusal::NoMemory
    }
}
