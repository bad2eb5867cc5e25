//! The refusals of a keeper.

ghost use Rattle.std.specs.Prelude.{◌≡◌};
ghost use Rattle.jar_keeper.specs.declared.refusal.KeeperRefusal.TheVariants.{NoMemory as WantOfMemory};

use jar_types::NoMemory;
use std::error::Error;
use std::fmt;

/// Why a keeper's call was refused.
///
/// This jar's own rule: docs/DEFINITIONS.md.
#[derive(Clone, Copy, Debug, PartialEq, Eq)]
pub enum KeeperRefusal {
    /// The store failed, and the keeper counted the fault.
    Failed,
    /// Memory was wanting.
    NoMemory,
}

impl fmt::Display for KeeperRefusal {
    fn fmt<W: fmt::Write>(&self, f: &mut fmt::Formatter<W>) -> fmt::Result {
        match self {
            KeeperRefusal::Failed => write!(f, "the store failed"),
            KeeperRefusal::NoMemory => write!(f, "out of memory"),
        }
    }
}

impl Error for KeeperRefusal {}

impl From<NoMemory> for KeeperRefusal {
    ghost from_gives = { λ _ refusal. refusal ≡ WantOfMemory };

    fn from(_error: NoMemory) -> KeeperRefusal {
        KeeperRefusal::NoMemory
    }
}
