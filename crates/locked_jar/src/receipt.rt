//! What a caller is told.

ghost use Rattle.std.specs.Prelude.{◌≡◌};
ghost use Rattle.locked_jar.specs.declared.receipt.CallRefusal.TheVariants.{NoMemory as WantOfMemory};

use jar_types::{Awaited, NoMemory, Reply};
use std::error::Error;
use std::fmt;

/// Where the entry of a call stands in the journal, counted from 1, and its reply.
///
/// This jar's own rule: docs/DEFINITIONS.md.
#[derive(Drop)]
pub struct Receipt {
    pub place: u64,
    pub reply: Reply,
}

/// Why a call made no entry, in the order in which these apply.
///
/// This jar's own rule: docs/DEFINITIONS.md.
#[derive(Drop)]
pub enum CallRefusal {
    /// Callers have as many entries as they may.
    Spent,
    /// What the call needs isn't loaded, and no load of it was lost. It is wanted now.
    Pending(Awaited),
    /// A Hear waits: its actor has made as many posts as `found`, and fewer than it wants.
    NotYet { found: u64 },
    /// Memory was wanting.
    NoMemory,
}

impl fmt::Display for CallRefusal {
    fn fmt<W: fmt::Write>(&self, f: &mut fmt::Formatter<W>) -> fmt::Result {
        match self {
            CallRefusal::Spent => write!(f, "callers have as many entries as they may"),
            CallRefusal::Pending(Awaited::Key(key)) => {
                write!(f, "the cookies of {} aren't loaded", key.as_str())
            }
            CallRefusal::Pending(Awaited::All) => write!(f, "not all cookies are loaded"),
            CallRefusal::NotYet { found } => write!(f, "only {found} posts were made"),
            CallRefusal::NoMemory => write!(f, "out of memory"),
        }
    }
}

impl fmt::Debug for CallRefusal {
    fn fmt<W: fmt::Write>(&self, f: &mut fmt::Formatter<W>) -> fmt::Result {
        fmt::Display::fmt(self, f)
    }
}

impl Error for CallRefusal {}

impl From<NoMemory> for CallRefusal {
    ghost from_gives = { λ _ refusal. refusal ≡ WantOfMemory };

    fn from(_error: NoMemory) -> CallRefusal {
        CallRefusal::NoMemory
    }
}
