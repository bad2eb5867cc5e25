//! The steps by which a seat takes a copy in.

use crate::view::View;
use atomic_table::Join;

/// The baton takes a copy in.
pub struct BatonTakes;

impl Join<View> for BatonTakes {
    ghost use Rattle.version_cells.specs.Views.{spent_view};
    ghost use Rattle.version_cells.specs.Moves.{baton_with_copy};

    ghost both = { baton_with_copy };

    ghost spent = { spent_view };
}

/// A pass takes a copy in.
pub struct PassTakes;

impl Join<View> for PassTakes {
    ghost use Rattle.version_cells.specs.Views.{spent_view};
    ghost use Rattle.version_cells.specs.Moves.{pass_with_copy};

    ghost both = { pass_with_copy };

    ghost spent = { spent_view };
}
