//! Looking at a version.

ghost use Rattle.std.specs.Prelude.{◌≡◌, ◌≤◌};
ghost use Rattle.version_cells.specs.Listings.{IsCell, turns};
ghost use Rattle.version_cells.specs.Moves.{after_look};
ghost use Rattle.version_cells.specs.Standing.{pass_with_view};

use crate::cells::Cells;
use crate::pass::Pass;
use crate::view::View;
use atomic_table::Play;

impl Cells {
    /// Reads the version of a cell, by one load, which the pass notes.
    ///
    /// No look goes back: it finds at least the entries that the pass has seen move the cell.
    /// This jar's own rule: docs/DEFINITIONS.md.
    pub fn look(&self, pass: &mut Pass, cell: u32) -> u64
        requires same { pass.old.table ≡ self.now }
        requires cell { IsCell cell }
        ensures noted { pass.new ≡ pass_with_view pass.old (after_look pass.old.view cell result) }
        ensures never_back { turns cell pass.old.view.own.seen ≤ result }
    {
        let found = self
            .table
            .shared
            .load::<Looks>(&mut pass.seat, cell as usize);
        pass.looks = pass.looks.saturating_add(1);
        found
    }
}

/// A pass loads the version of a cell.
pub struct Looks;

impl Play<u8, View> for Looks {
    ghost use Rattle.std.specs.Prelude.{◌≡◌, ◌≤◌, []};
    ghost use Rattle.version_cells.specs.Listings.{turns};
    ghost use Rattle.version_cells.specs.Moves.{after_look};

    ghost then = { λ s me found after. (after ≡ (after_look me.0 s.word found, []))
        × (turns s.word me.0.own.seen ≤ found) };
}
