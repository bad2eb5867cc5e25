//! What the history of the words has of an entry. No value of this type is made.

use jar_types::Entry;
use std::collections::LinkedList;

/// One committed entry: the cells that it moves, its owner, and the entry itself.
///
/// The rule of the words reads the cells and the owner alone.
/// This jar's own rule: docs/DEFINITIONS.md.
pub struct Listing {
    /// The cells that it moves, each from 1 to `CELLS`, none twice.
    pub cells: LinkedList<u32>,
    /// The number of the pass that owns it, if one does.
    pub owner: Option<u32>,
    /// What the jar's journal has.
    pub about: Entry,
}
