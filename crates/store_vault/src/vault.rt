//! The vault.

ghost use Rattle.std.specs.List.Sorted.{IsStrictlySortedBy-prop};
ghost use Rattle.commit_batches.specs.Waiting.{ChangesRise};
ghost use Rattle.jar_types.specs.RowChanges.{change_cmp};

use crate::stored::Stored;
use jar_keeper::Keeper;
use jar_types::RowChanges;
use version_cells::Pass;

/// How many entries the jar may have by its loads and commits: Begun, Loaded, Lost, Whole, Taken, Acked and CommitLost.
///
/// This jar's own rule: docs/DEFINITIONS.md.
pub const MOST_OWNS: u64 = 2_305_843_009_213_693_952;

/// The keeper of the stored rows, the pass that owns what its loads and commits enter, the stored hosts, the changes that
/// were taken and aren't committed, the place of the last batch that was committed, 0 for none, how many entries the
/// pass owns, and whether the keeper was used without an entry that tells of it, since memory was wanting.
///
/// This jar's own rule: docs/DEFINITIONS.md.
#[derive(Drop)]
pub struct Vault<K: Keeper + Drop> {
    pub keeper: K,
    pub cutter: Pass,
    pub stored: Stored,
    pub kept: RowChanges,
    pub acked: u64,
    pub owns: u64,
    pub starved: bool,
    pub ghost rises: { ChangesRise kept } by { IsStrictlySortedBy-prop change_cmp kept },
}
