//! The words.

use crate::rule::WordRule;
use crate::view::View;
use atomic_table::Table;
use jar_types::MOST_CELLS;
use std::alloc::Global;
use std::marker::Model;

/// How many cells there are, numbered from 1: as many as keys can be bound.
///
/// This jar's own rule: docs/DEFINITIONS.md.
pub const CELLS: u32 = MOST_CELLS;

/// How many words there are: the number of entries, and the version of each cell.
pub const WORDS: usize = CELLS as usize + 1;

/// How many entries may be committed, so that no word turns over: 2^63 - 1.
///
/// This jar's own rule: docs/DEFINITIONS.md.
pub const MOST_ENTRIES: u64 = 9_223_372_036_854_775_807;

/// The words, which all threads share, seen as the identity of their table.
#[derive(Drop)]
pub struct Cells {
    pub(crate) table: Table<u8, View, (), WordRule, Global>,
}

impl Model for Cells {
    ghost use Rattle.std.specs.Prelude.{◌≡◌};
    ghost use Rattle.atomic_table.specs.Seated.{TableId};
    ghost use Rattle.version_cells.specs.declared.cells.TheConstants.{WORDS};

    ghost Value = { TableId };

    ghost view = { λ s. s.table.shared.table_id };

    ghost invariant = { λ s. s.table.shared.table_id.words ≡ WORDS };
}
