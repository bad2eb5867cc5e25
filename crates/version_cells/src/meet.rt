//! Meeting the baton.

ghost use Rattle.std.specs.Prelude.{◌≡◌};
ghost use Rattle.version_cells.specs.Told.{ComesHome, Met, pass_after_meet, baton_after_meet};
ghost use Rattle.version_cells.specs.Standing.{baton_with_view, pass_with_view};

use crate::baton::Baton;
use crate::cells::Cells;
use crate::copies::{BatonCopies, PassCopies};
use crate::fronts::Fronts;
use crate::joins::{BatonTakes, PassTakes};
use crate::pass::Pass;

impl Cells {
    /// Shows the pass all committed entries, brings its permit home, and has the baton note its
    /// last look.
    ///
    /// What the meeting tells is the record `Met`. This jar's own rule: docs/DEFINITIONS.md.
    pub fn meet(&self, pass: &mut Pass, baton: &mut Baton)
        requires same { (pass.old.table ≡ self.now) × (baton.old.table ≡ self.now) }
        requires home { ComesHome pass.old.view.number pass.old.view.away baton.old.view.permit }
        ensures pass { pass.new
            ≡ pass_with_view pass.old (pass_after_meet pass.old.view baton.old.view) }
        ensures baton { baton.new
            ≡ baton_with_view baton.old (baton_after_meet baton.old.view pass.old.view) }
        ensures met { Met pass.old.view baton.old.view }
    {
        let copy = self.table.shared.split_seat::<BatonCopies>(&mut baton.seat);
        self.table
            .shared
            .join_seat::<PassTakes>(&mut pass.seat, copy);
        let found = self.table.shared.load::<Fronts>(&mut pass.seat, 0);
        pass.seen = found;
        let note = self.table.shared.split_seat::<PassCopies>(&mut pass.seat);
        self.table
            .shared
            .join_seat::<BatonTakes>(&mut baton.seat, note);
        self.count(baton);
    }
}
