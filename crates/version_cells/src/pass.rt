//! The pass of one caller.

ghost use Rattle.std.specs.Prelude.{◌≡◌, ◌-◌, ◌^◌, length, min};
ghost use Rattle.version_cells.specs.Listings.{StartsWith};
ghost use Rattle.version_cells.specs.Answered.{IsFront};

use crate::view::View;
use atomic_table::Seat;
use std::marker::Model;

/// The seat of one caller, seen as its table, its view and its front.
///
/// The front is the history up to and with the entry of its last answered call, and begins what
/// the pass has seen.
#[derive(Drop)]
pub struct Pass {
    pub(crate) seat: Seat<u8, View>,
    // Its number.
    pub(crate) caller: u32,
    // How many looks were made, at most the last `u64`.
    pub(crate) looks: u64,
    // How many entries it has seen, and how many of these its front has.
    pub(crate) seen: u64,
    pub(crate) front: u64,
}

impl Model for Pass {
    ghost use Rattle.std.specs.Prelude.{◌≡◌, [], take};
    ghost use Rattle.version_cells.specs.Standing.{PassStanding};
    ghost use Rattle.version_cells.specs.Answered.{PassHolds};

    ghost Value = { PassStanding };

    ghost view = { λ s. record {
      table = s.seat.table_id;
      view = s.seat.me.0;
      front = take s.front s.seat.me.0.own.seen;
    } };

    ghost invariant = { λ s. (s.seat.me.1 ≡ [])
        × PassHolds s.seat.me.0 s.caller s.looks s.seen s.front };
}

impl Pass {
    /// Its number, by which it owns entries.
    pub fn caller(&self) -> u32
        ensures { result ≡ self.now.view.number }
    {
        self.caller
    }

    /// How many entries its front has: the place, counted from 1, of its last answered call.
    ///
    /// It is 0 before the first such call. This jar's own rule: docs/DEFINITIONS.md.
    pub fn front(&self) -> u64
        ensures length { result ≡ length self.now.front }
        ensures begins { StartsWith self.now.view.own.seen self.now.front }
        ensures ends { IsFront self.now.view.number self.now.front }
    {
        self.front
    }

    /// How many looks were made with it; the count stands still at the last `u64`.
    pub fn looks(&self) -> u64
        ensures { result ≡ min (length self.now.view.looks) (2 ^ 64 - 1) }
    {
        self.looks
    }
}
