//! The kept answer of one cell.

ghost use Rattle.version_cells.specs.Listings.{IsCell};

use jar_types::Text;

/// An answer text, the cell and the version at which it was asked, and until when it is right.
///
/// This jar's own rule: docs/DEFINITIONS.md.
#[derive(Drop)]
pub struct Kept {
    /// The cell, from 1 to `CELLS` of the version words.
    pub cell: u32,
    /// The version at which the text was the answer: how many entries had moved the cell.
    pub version: u64,
    /// The moment from which the text is late, in milliseconds since 1970.
    pub until: u64,
    /// The answer text.
    pub text: Text,
    ghost in_range: { IsCell cell },
}
