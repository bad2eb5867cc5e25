//! Making a cell pending.

ghost use Rattle.std.specs.Prelude.{◌≡◌, false};
ghost use Rattle.version_cells.specs.Listings.{has, IsCell};
ghost use Rattle.version_cells.specs.Moves.{after_bump};
ghost use Rattle.version_cells.specs.Standing.{baton_with_view};

use crate::baton::Baton;
use crate::cells::Cells;
use crate::view::View;
use atomic_table::Play;

impl Cells {
    /// Makes a cell pending, one more in its word, before an entry that moves it.
    ///
    /// This jar's own rule: docs/DEFINITIONS.md.
    pub fn bump(&self, baton: &mut Baton, cell: u32)
        requires same { baton.old.table ≡ self.now }
        requires cell { IsCell cell }
        requires free { has cell baton.old.view.pending ≡ false }
        ensures { baton.new ≡ baton_with_view baton.old (after_bump baton.old.view cell) }
    {
        self.table
            .shared
            .fetch_add::<Bumps>(&mut baton.seat, cell as usize, 1);
    }
}

/// The baton adds one to the word of a cell.
pub struct Bumps;

impl Play<u8, View> for Bumps {
    ghost use Rattle.std.specs.Prelude.{◌≡◌, []};
    ghost use Rattle.version_cells.specs.Moves.{after_bump};

    ghost then = { λ s me _ after. after ≡ (after_bump me.0 s.word, []) };
}
