//! The steps that cut a copy from a seat.

use crate::view::View;
use atomic_table::Split;

/// A copy of the baton takes the permit along that the baton holds.
pub struct BatonCopies;

impl Split<View> for BatonCopies {
    ghost use Rattle.version_cells.specs.Moves.{without_permit, baton_copy_with_permit};

    ghost left = { without_permit };

    ghost right = { baton_copy_with_permit };
}

/// A copy of a pass, which keeps its permit.
pub struct PassCopies;

impl Split<View> for PassCopies {
    ghost use Rattle.version_cells.specs.Moves.{pass_copy};

    ghost left = { λ v. v };

    ghost right = { pass_copy };
}

/// A copy of a pass takes its permit along.
pub struct PassLends;

impl Split<View> for PassLends {
    ghost use Rattle.version_cells.specs.Moves.{after_lending, pass_copy_with_permit};

    ghost left = { after_lending };

    ghost right = { pass_copy_with_permit };
}
