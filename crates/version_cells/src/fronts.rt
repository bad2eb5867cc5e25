//! The load of the number of entries by a pass.

use crate::view::View;
use atomic_table::Play;

/// A pass loads the number of entries, and its seen becomes the longest that it knows.
pub struct Fronts;

impl Play<u8, View> for Fronts {
    ghost use Rattle.std.specs.Prelude.{◌≡◌, []};
    ghost use Rattle.version_cells.specs.Moves.{after_front};
    ghost use Rattle.version_cells.specs.Told.{FrontTells};

    ghost then = { λ _ me found after. (after ≡ (after_front me.0 found, []))
        × FrontTells me.0 found };
}
