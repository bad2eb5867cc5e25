//! What a load and a commit come to.

ghost use Rattle.std.specs.Prelude.{◌≡◌};
ghost use Rattle.store_vault.specs.declared.refusal.FlushRefusal.TheVariants as flush;
ghost use Rattle.store_vault.specs.declared.refusal.LoadRefusal.TheVariants as load;

use jar_types::NoMemory;
use std::error::Error;
use std::fmt;

/// What a load did: a key was loaded, the jar became whole, or it was whole before.
#[derive(Clone, Copy, Debug, PartialEq, Eq)]
pub enum LoadStep {
    Key,
    Whole,
    Idle,
}

/// Why a load did none of it.
///
/// This jar's own rule: docs/DEFINITIONS.md.
#[derive(Clone, Copy, Debug, PartialEq, Eq)]
pub enum LoadRefusal {
    /// The keeper failed, and the load of a key was lost.
    StoreFault,
    /// Memory was wanting. The load of a key may have begun.
    NoMemory,
    /// Loads and commits have as many entries as they may.
    Spent,
}

impl fmt::Display for LoadRefusal {
    fn fmt<W: fmt::Write>(&self, f: &mut fmt::Formatter<W>) -> fmt::Result {
        match self {
            LoadRefusal::StoreFault => write!(f, "the keeper failed"),
            LoadRefusal::NoMemory => write!(f, "out of memory"),
            LoadRefusal::Spent => write!(f, "as many loads and commits as there may be"),
        }
    }
}

impl Error for LoadRefusal {}

impl From<NoMemory> for LoadRefusal {
    ghost from_gives = { λ _ refusal. refusal ≡ load.NoMemory };

    fn from(_error: NoMemory) -> LoadRefusal {
        LoadRefusal::NoMemory
    }
}

/// Why changed rows weren't committed.
///
/// This jar's own rule: docs/DEFINITIONS.md.
#[derive(Clone, Copy, Debug, PartialEq, Eq)]
pub enum FlushRefusal {
    /// The keeper failed: the batch was lost, and its changes are kept.
    StoreFault,
    /// Memory was wanting, before a batch was taken, or in the keeper: then the batch was lost, and its changes are kept.
    NoMemory,
    /// Loads and commits have as many entries as they may.
    Spent,
}

impl fmt::Display for FlushRefusal {
    fn fmt<W: fmt::Write>(&self, f: &mut fmt::Formatter<W>) -> fmt::Result {
        match self {
            FlushRefusal::StoreFault => write!(f, "the keeper failed"),
            FlushRefusal::NoMemory => write!(f, "out of memory"),
            FlushRefusal::Spent => write!(f, "as many loads and commits as there may be"),
        }
    }
}

impl Error for FlushRefusal {}

impl From<NoMemory> for FlushRefusal {
    ghost from_gives = { λ _ refusal. refusal ≡ flush.NoMemory };

    fn from(_error: NoMemory) -> FlushRefusal {
        FlushRefusal::NoMemory
    }
}
