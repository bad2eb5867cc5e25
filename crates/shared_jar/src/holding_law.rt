//! Laws of what the keeper of a jar holds.

ghost use Rattle.shared_jar.specs.Holding.{KeepersHoldTheAcked};

use jar_keeper::Keeper;

/// Where a jar stays over the rows that it was opened over, its keeper tells rows, of which those are
/// sound that were to be stored when the last batch that was committed was taken.
///
/// This jar's own rule: docs/DEFINITIONS.md.
pub fn keepers_hold_the_acked<K: Keeper>(keeper: &K)
    ensures { KeepersHoldTheAcked (K.tells keeper.now) }
{}
