//! Refusals of a suffix list.

ghost use Rattle.std.specs.Prelude.{◌≡◌};
ghost use Rattle.public_suffix.specs.declared.refusal.SuffixRefusal.TheVariants.{NoMemory as no_memory};

use jar_values::NoMemory;
use std::alloc::{AllocError, AllocFailed};
use std::error::Error;
use std::fmt;

/// The most rules that a suffix list may have.
///
/// This jar's own rule: docs/DEFINITIONS.md.
pub const MAX_RULES: usize = 20_000;

/// Why a text is no suffix list.
#[derive(Clone, Copy, Debug, PartialEq, Eq)]
pub enum SuffixRefusal {
    /// The first line that is no rule, counted from 1.
    BadRule { line: u32 },
    /// No line is bad, and there are more than [`MAX_RULES`] rules.
    TooMany,
    /// Memory was wanting.
    NoMemory,
}

impl fmt::Display for SuffixRefusal {
    fn fmt<W: fmt::Write>(&self, f: &mut fmt::Formatter<W>) -> fmt::Result {
        match self {
            SuffixRefusal::BadRule { line } => write!(f, "line {line} is no suffix rule"),
            SuffixRefusal::TooMany => write!(f, "too many suffix rules"),
            SuffixRefusal::NoMemory => write!(f, "out of memory"),
        }
    }
}

impl Error for SuffixRefusal {}

impl From<AllocError> for SuffixRefusal {
    ghost from_gives = { λ _ e. e ≡ no_memory };

    fn from(_error: AllocError) -> SuffixRefusal {
        SuffixRefusal::NoMemory
    }
}

impl<T: Drop> From<AllocFailed<T>> for SuffixRefusal {
    ghost from_gives = { λ _ e. e ≡ no_memory };

    fn from(_error: AllocFailed<T>) -> SuffixRefusal {
        SuffixRefusal::NoMemory
    }
}

impl From<NoMemory> for SuffixRefusal {
    ghost from_gives = { λ _ e. e ≡ no_memory };

    fn from(_error: NoMemory) -> SuffixRefusal {
        SuffixRefusal::NoMemory
    }
}
