//! The baton's load of the number of entries.

ghost use Rattle.std.specs.Prelude.{◌≡◌};
ghost use Rattle.version_cells.specs.Told.{CoversAll};

use crate::baton::Baton;
use crate::cells::Cells;
use crate::view::View;
use atomic_table::Play;

impl Cells {
    /// Loads the number of entries, by which the baton is told that it covers its notes.
    pub(crate) fn count(&self, baton: &mut Baton)
        requires same { baton.old.table ≡ self.now }
        ensures kept { baton.new ≡ baton.old }
        ensures covers { CoversAll baton.old.view baton.old.view.notes }
    {
        self.table.shared.load::<BatonCounts>(&mut baton.seat, 0);
    }
}

/// The baton loads the number of entries, and is told that it covers its notes.
pub struct BatonCounts;

impl Play<u8, View> for BatonCounts {
    ghost use Rattle.std.specs.Prelude.{◌≡◌, [], length};
    ghost use Rattle.version_cells.specs.Told.{CoversAll};

    ghost then = { λ _ me found after. (after ≡ (me.0, [])) × (found ≡ length me.0.own.seen)
        × CoversAll me.0 me.0.notes };
}
