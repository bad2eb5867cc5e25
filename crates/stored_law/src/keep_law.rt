//! Laws of what is stored after a journal.

ghost use Rattle.stored_law.specs.Keeping.{ChangesAreStored, RowChangesGoOn};

/// The entry of an event adds the changes of rows that the event makes.
///
/// This jar's own rule: docs/DEFINITIONS.md.
#[tactic(auto, using(crate::proofs::StoredLemmas::row_changes_go_on))]
pub fn row_changes_go_on()
    ensures { RowChangesGoOn }
{}

/// Who held the stored rows and took all changes of a journal, whose calls store what can be
/// stored, holds among its sound rows just those that are to be stored.
///
/// This jar's own rule: docs/DEFINITIONS.md.
#[tactic(auto, using(crate::proofs::StoredLemmas::changes_are_stored))]
pub fn changes_are_stored()
    ensures { ChangesAreStored }
{}
