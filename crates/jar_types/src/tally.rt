//! Counts by caller.

ghost use Rattle.std.specs.Prelude.{◌≡◌, IfOk};

use jar_values::{Copied, Listed, NoMemory};
use std::alloc::Global;

/// How often a caller did something.
#[derive(Clone, Copy, Drop)]
pub struct Tally {
    pub caller: u32,
    pub count: u64,
}

/// Tallies of different callers, seen as their list.
///
/// This jar's own rule: docs/DEFINITIONS.md.
pub type Tallies = Listed<Tally>;

impl Copied for Tally {
    fn copied(&self, _alloc: Global) -> Result<Tally, NoMemory> {
        Ok(*self)
    }
}
