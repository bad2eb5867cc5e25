//! Laws of the changes of rows that wait beside a journal.

ghost use Rattle.beside_law.specs.Beside.{BesideBegins, BesideGoesOn, KeptRises, KeptWhereOut};
ghost use Rattle.beside_law.specs.Beside.{PendingIsTouched, PendingRises};

/// Nothing waits after no entry.
///
/// This jar's own rule: docs/DEFINITIONS.md.
#[tactic(auto, using(crate::proofs::BesideLemmas::beside_begins))]
pub fn beside_begins()
    ensures { BesideBegins }
{}

/// The entry of an event takes what waits one step on.
///
/// This jar's own rule: docs/DEFINITIONS.md.
#[tactic(auto, using(crate::proofs::BesideLemmas::beside_goes_on))]
pub fn beside_goes_on()
    ensures { BesideGoesOn }
{}

/// The ids of the changes that are pending rise.
///
/// This jar's own rule: docs/DEFINITIONS.md.
#[tactic(auto, using(crate::proofs::BesideLemmas::pending_rises))]
pub fn pending_rises()
    ensures { PendingRises }
{}

/// The ids of the changes that are kept rise.
///
/// This jar's own rule: docs/DEFINITIONS.md.
#[tactic(auto, using(crate::proofs::BesideLemmas::kept_rises))]
pub fn kept_rises()
    ensures { KeptRises }
{}

/// The ids of the changes that are pending are the touched ones.
///
/// This jar's own rule: docs/DEFINITIONS.md.
#[tactic(auto, using(crate::proofs::BesideLemmas::pending_is_touched))]
pub fn pending_is_touched()
    ensures { PendingIsTouched }
{}

/// No change is kept where no batch is out, and the last one wasn't lost.
///
/// This jar's own rule: docs/DEFINITIONS.md.
#[tactic(auto, using(crate::proofs::BesideLemmas::kept_where_out))]
pub fn kept_where_out()
    ensures { KeptWhereOut }
{}
