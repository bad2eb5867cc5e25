//! Keys that were bound to cells.

ghost use Rattle.std.specs.Prelude.{◌≡◌, IfOk};

use jar_values::{Copied, Listed, NoMemory, Text};
use std::alloc::Global;

/// How many keys can be bound, each to a cell from 1 on.
///
/// This jar's own rule: docs/DEFINITIONS.md.
pub const MOST_CELLS: u32 = 4096;

/// A key that was bound to a cell, and how many entries since then changed its cookies: the version
/// of the cell.
#[derive(Drop)]
pub struct BoundKey {
    pub key: Text,
    pub version: u64,
}

/// Bound keys in the order of their cells, seen as their list: the first has cell 1.
///
/// This jar's own rule: docs/DEFINITIONS.md.
pub type BoundKeys = Listed<BoundKey>;

impl BoundKey {
    /// The same again.
    pub fn copy(&self, alloc: Global) -> Result<BoundKey, NoMemory>
        ensures { IfOk result (λ bound. bound ≡ self.now) }
    {
        Ok(BoundKey {
            key: self.key.copy(alloc)?,
            version: self.version,
        })
    }
}

impl Copied for BoundKey {
    fn copied(&self, alloc: Global) -> Result<BoundKey, NoMemory> {
        self.copy(alloc)
    }
}
