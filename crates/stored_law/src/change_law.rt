//! Laws of changes of rows.

ghost use Rattle.stored_law.specs.Coalescing.{ChangedRowsRise, OtherRowsStay};
ghost use Rattle.stored_law.specs.Coalescing.{NewestAreTouched, NewestRise, NewestTellAll};

/// Rows that rise still do so after changes.
///
/// This jar's own rule: docs/DEFINITIONS.md.
#[tactic(auto, using(crate::proofs::ChangeLemmas::changed_rows_rise))]
pub fn changed_rows_rise()
    ensures { ChangedRowsRise }
{}

/// A row stays as it is where no change is of its id.
///
/// This jar's own rule: docs/DEFINITIONS.md.
#[tactic(auto, using(crate::proofs::ChangeLemmas::other_rows_stay))]
pub fn other_rows_stay()
    ensures { OtherRowsStay }
{}

/// Changes that rise still do so where newer ones came.
///
/// This jar's own rule: docs/DEFINITIONS.md.
#[tactic(auto, using(crate::proofs::ChangeLemmas::newest_rise))]
pub fn newest_rise()
    ensures { NewestRise }
{}

/// The ids of the newest changes are those of the older ones, touched by the newer.
///
/// This jar's own rule: docs/DEFINITIONS.md.
#[tactic(auto, using(crate::proofs::ChangeLemmas::newest_are_touched))]
pub fn newest_are_touched()
    ensures { NewestAreTouched }
{}

/// The newest changes make of rows what the older ones and then the newer ones make of them.
///
/// This jar's own rule: docs/DEFINITIONS.md.
#[tactic(auto, using(crate::proofs::ChangeLemmas::newest_tell_all))]
pub fn newest_tell_all()
    ensures { NewestTellAll }
{}
