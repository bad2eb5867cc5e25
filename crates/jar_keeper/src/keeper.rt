//! What stored rows are kept in.

ghost use Rattle.std.specs.Prelude.{◌≡◌, ℕ, List, IfOk};
ghost use Rattle.std.specs.List.Sorted.{IsStrictlySortedBy};
ghost use Rattle.jar_types.specs.Ids.{text_cmp};
ghost use Rattle.jar_types.specs.RowChanges.{RowsRise};
ghost use Rattle.jar_types.specs.Stored.{hosts_of};
ghost use Rattle.jar_types.specs.declared.row.Row.{Row as RowData};
ghost use Rattle.jar_keeper.specs.HostRows.{AreOfHost, rows_of_host};
ghost use Rattle.jar_keeper.specs.Keepers.{CountsFault, Gives, TellsSame, LeavesNoMore};
ghost use Rattle.jar_keeper.specs.Keepers.{CommitTells, CommitLeaves};

use crate::refusal::KeeperRefusal;
use jar_types::{RowChanges, Rows, Texts};
use std::alloc::Global;

/// What stored rows are kept in.
///
/// This jar's own rule: docs/DEFINITIONS.md.
pub trait Keeper {
    /// The rows, in the order of their ids, as far as they are known: those that it was made with,
    /// and what was committed since. A keeper that doesn't know its rows tells none.
    ghost tells: { Self → List RowData → Type 0 };

    /// Whether so far nobody else wrote what it keeps, and its store gave back what was written.
    /// That may end in any call, and doesn't come back.
    ghost undisturbed: { Self → Type 0 };

    /// The lists of rows that a crash may leave at this moment.
    ghost leaves: { Self → List RowData → Type 0 };

    /// How many calls failed, up to the last value of a u64.
    ghost faults: { Self → ℕ };

    /// The hosts of the rows, ascending by bytes, each once.
    ///
    /// A store that fails is Failed, and the count of faults rises. The rows stay, and so does what
    /// a crash may leave.
    fn hosts(&mut self, alloc: Global) -> Result<Texts, KeeperRefusal>
        ensures rises { IfOk result (IsStrictlySortedBy text_cmp) }
        ensures value { undisturbed self.new → IfOk result (Gives hosts_of (tells self.old)) }

        ensures told { TellsSame (tells self.old) (tells self.new) }
        ensures left { undisturbed self.new → LeavesNoMore (leaves self.old) (leaves self.new) }

        ensures count { CountsFault (faults self.old) (faults self.new) result }
        ensures since { undisturbed self.new → undisturbed self.old };

    /// The rows of a host, in the order of their ids.
    ///
    /// A store that fails is Failed, and the count of faults rises. The rows stay, and so does what
    /// a crash may leave.
    fn load(&mut self, alloc: Global, host: &str) -> Result<Rows, KeeperRefusal>
        ensures rises { IfOk result (λ rows. AreOfHost host.now rows × RowsRise rows) }
        ensures value { undisturbed self.new
            → IfOk result (Gives (rows_of_host host.now) (tells self.old)) }

        ensures told { TellsSame (tells self.old) (tells self.new) }
        ensures left { undisturbed self.new → LeavesNoMore (leaves self.old) (leaves self.new) }

        ensures count { CountsFault (faults self.old) (faults self.new) result }
        ensures since { undisturbed self.new → undisturbed self.old };

    /// Makes these changes of the rows, one after another, all or none.
    ///
    /// A store that fails is Failed, and the count of faults rises. At a refusal the rows stay, and
    /// a crash leaves what it could leave before, or the changed rows whole. Else it leaves just
    /// these.
    fn commit(&mut self, alloc: Global, changes: &RowChanges) -> Result<(), KeeperRefusal>
        ensures told { CommitTells changes.now (tells self.old) (tells self.new) result }
        ensures left { undisturbed self.new → CommitLeaves changes.now (tells self.old)
            (leaves self.old) (leaves self.new) result }

        ensures count { CountsFault (faults self.old) (faults self.new) result }
        ensures since { undisturbed self.new → undisturbed self.old };

    /// What it tells is in the order of ids.
    ghost told_rise: { (keeper : Self) (rows : List RowData) → tells keeper rows → RowsRise rows };

    /// It tells one list at most.
    ghost told_once: { (keeper : Self) (rows others : List RowData)
        → tells keeper rows → tells keeper others → rows ≡ others };

    /// What a crash leaves is in the order of ids.
    ghost left_rise: { (keeper : Self) (rows : List RowData) → leaves keeper rows → RowsRise rows };
}
