//! Laws of the rows that a keeper holds beside a journal.

ghost use Rattle.beside_law.specs.Held.{AckedIsThere, AllAckedIsStored, AllIsHeld, BatchIsStored};
ghost use Rattle.beside_law.specs.Held.{HeldBegins, HeldGoesOn, HeldIsAcked, HeldIsStored, HeldRises};
ghost use Rattle.beside_law.specs.Held.{LeftIsHeld, LoadsStayHonest, SettledIsStored};

/// After no entry those rows are held that were before it.
///
/// This jar's own rule: docs/DEFINITIONS.md.
#[tactic(auto, using(crate::proofs::HeldLemmas::held_begins))]
pub fn held_begins()
    ensures { HeldBegins }
{}

/// The entry of an event takes what is held one step on.
///
/// This jar's own rule: docs/DEFINITIONS.md.
#[tactic(auto, using(crate::proofs::HeldLemmas::held_goes_on))]
pub fn held_goes_on()
    ensures { HeldGoesOn }
{}

/// The ids of the rows that are held rise where they did before the journal.
///
/// This jar's own rule: docs/DEFINITIONS.md.
#[tactic(auto, using(crate::proofs::HeldLemmas::held_rises))]
pub fn held_rises()
    ensures { HeldRises }
{}

/// The kept and the pending changes make of the rows that are held what all changes of the journal
/// make of those before it.
///
/// This jar's own rule: docs/DEFINITIONS.md.
#[tactic(auto, using(crate::proofs::HeldLemmas::all_is_held))]
pub fn all_is_held()
    ensures { AllIsHeld }
{}

/// The place of the last batch that was committed is within the journal.
///
/// This jar's own rule: docs/DEFINITIONS.md.
#[tactic(auto, using(crate::proofs::AckedLemmas::acked_is_there))]
pub fn acked_is_there()
    ensures { AckedIsThere }
{}

/// The rows that are held are what all changes made of those before the journal, up to the taking
/// of the last batch that was committed.
///
/// This jar's own rule: docs/DEFINITIONS.md.
#[tactic(auto, using(crate::proofs::AckedLemmas::held_is_acked))]
pub fn held_is_acked()
    ensures { HeldIsAcked }
{}

/// The sound rows that are held are those that were to be stored when the last batch that was
/// committed was taken.
///
/// This jar's own rule: docs/DEFINITIONS.md.
#[tactic(auto, using(crate::proofs::AckedLemmas::held_is_stored))]
pub fn held_is_stored()
    ensures { HeldIsStored }
{}

/// Where a batch is out, its changes make of them those that were to be stored when it was taken.
///
/// This jar's own rule: docs/DEFINITIONS.md.
#[tactic(auto, using(crate::proofs::AckedLemmas::batch_is_stored))]
pub fn batch_is_stored()
    ensures { BatchIsStored }
{}

/// Where no change is kept or pending, they are those that are to be stored after the journal.
///
/// This jar's own rule: docs/DEFINITIONS.md.
#[tactic(auto, using(crate::proofs::AckedLemmas::all_acked_is_stored))]
pub fn all_acked_is_stored()
    ensures { AllAckedIsStored }
{}

/// And so they are where no row was touched, no batch is out, and the last one wasn't lost.
///
/// This jar's own rule: docs/DEFINITIONS.md.
#[tactic(auto, using(crate::proofs::AckedLemmas::settled_is_stored))]
pub fn settled_is_stored()
    ensures { SettledIsStored }
{}

/// The cookies of the hosts of a key that isn't loaded are held as they were stored.
///
/// This jar's own rule: docs/DEFINITIONS.md.
#[tactic(auto, using(crate::proofs::LoadLemmas::left_is_held))]
pub fn left_is_held()
    ensures { LeftIsHeld }
{}

/// The load of a key that has begun lists just what was stored.
///
/// This jar's own rule: docs/DEFINITIONS.md.
#[tactic(auto, using(crate::proofs::LoadLemmas::loads_stay_honest))]
pub fn loads_stay_honest()
    ensures { LoadsStayHonest }
{}
