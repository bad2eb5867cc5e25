//! The baton.

use crate::view::View;
use atomic_table::Seat;
use std::marker::Model;

/// The one seat that commits entries, seen as its table and its view.
///
/// Its `seen` is the whole history.
#[derive(Drop)]
pub struct Baton {
    pub(crate) seat: Seat<u8, View>,
}

impl Model for Baton {
    ghost use Rattle.std.specs.Prelude.{◌≡◌, []};
    ghost use Rattle.version_cells.specs.declared.view.Kind.TheVariants.{Baton as IsBaton};
    ghost use Rattle.version_cells.specs.Standing.{BatonStanding};

    ghost Value = { BatonStanding };

    ghost view = { λ s. record { table = s.seat.table_id; view = s.seat.me.0 } };

    ghost invariant = { λ s. (s.seat.me.0.kind ≡ IsBaton) × (s.seat.me.1 ≡ []) };
}
