//! Lending a permit.

ghost use Rattle.std.specs.Prelude.{◌≡◌, false, None};
ghost use Rattle.version_cells.specs.Moves.{after_lending, with_permit_of};
ghost use Rattle.version_cells.specs.Told.{Covers};
ghost use Rattle.version_cells.specs.Standing.{baton_with_view, pass_with_view};

use crate::baton::Baton;
use crate::cells::Cells;
use crate::copies::PassLends;
use crate::joins::BatonTakes;
use crate::pass::Pass;

impl Cells {
    /// Lends the pass's permit to the baton, which notes what the pass has seen and its last look.
    ///
    /// This jar's own rule: docs/DEFINITIONS.md.
    pub fn lend(&self, pass: &mut Pass, baton: &mut Baton)
        requires same { (pass.old.table ≡ self.now) × (baton.old.table ≡ self.now) }
        requires free { (pass.old.view.away ≡ false) × (baton.old.view.permit ≡ None) }
        ensures pass { pass.new ≡ pass_with_view pass.old (after_lending pass.old.view) }
        ensures baton { baton.new
            ≡ baton_with_view baton.old (with_permit_of baton.old.view pass.old.view) }
        ensures covers { Covers baton.old.view pass.old.view.own }
    {
        let copy = self.table.shared.split_seat::<PassLends>(&mut pass.seat);
        self.table
            .shared
            .join_seat::<BatonTakes>(&mut baton.seat, copy);
        self.count(baton);
    }
}
