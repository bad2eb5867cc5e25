//! Changes of the cookies, and their causes.

ghost use Rattle.std.specs.Prelude.{◌≡◌, IfOk};

use crate::cookie::Cookie;
use jar_values::{Copied, Listed, NoMemory};
use std::alloc::Global;

/// Why a cookie came or left.
///
/// `Inserted` is of a cookie that came. `Explicit` is of one that a caller took away, `Overwrite` of one that left for
/// another of its id, `Expired` of one that left at its expiry, `Evicted` of one that left where there were too many,
/// and `ExpiredOverwrite` of one that left for another of its id that had expired.
///
/// This jar's own rule: docs/DEFINITIONS.md.
#[derive(Clone, Copy, Debug, PartialEq, Eq)]
pub enum Cause {
    Inserted,
    Explicit,
    Overwrite,
    Expired,
    Evicted,
    ExpiredOverwrite,
}

/// A cookie that came or left, as it then stood, and why.
///
/// This jar's own rule: docs/DEFINITIONS.md.
#[derive(Drop)]
pub struct Change {
    pub cause: Cause,
    pub cookie: Cookie,
}

/// Changes in their order, seen as their list.
pub type Changes = Listed<Change>;

impl Change {
    /// The same change again.
    pub fn copy(&self, alloc: Global) -> Result<Change, NoMemory>
        ensures { IfOk result (λ change. change ≡ self.now) }
    {
        Ok(Change {
            cause: self.cause,
            cookie: self.cookie.copy(alloc)?,
        })
    }
}

impl Copied for Change {
    fn copied(&self, alloc: Global) -> Result<Change, NoMemory> {
        self.copy(alloc)
    }
}
