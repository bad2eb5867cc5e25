//! What a caller of any keeper can conclude.

ghost use Rattle.std.specs.Prelude.{◌≡◌, ◌++◌, List, IfOk, OnOk, OnErr, flat_map};
ghost use Rattle.jar_types.specs.RowChanges.{RowsRise, changed_rows};
ghost use Rattle.jar_types.specs.Stored.{hosts_of};
ghost use Rattle.jar_types.specs.declared.row.Row.{Row as RowData};
ghost use Rattle.jar_keeper.specs.HostRows.{rows_of_host};
ghost use Rattle.jar_keeper.specs.Keepers.{LeavesJust, TellsSame};

use crate::{Keeper, KeeperRefusal};
use jar_types::{NoMemory, Row, RowChanges, Rows};
use std::alloc::Global;

/// The rows of each host, host after host: where the keeper tells rows, these are theirs.
pub fn load_all<K: Keeper>(alloc: Global, keeper: &mut K) -> Result<Rows, KeeperRefusal>
    ensures all { K.undisturbed keeper.new → IfOk result
        (λ all. (rows : List RowData) → K.tells keeper.old rows
        → all ≡ flat_map (λ host. rows_of_host host rows) (hosts_of rows)) }
    ensures told { TellsSame (K.tells keeper.old) (K.tells keeper.new) }
    ensures since { K.undisturbed keeper.new → K.undisturbed keeper.old }
{
    let hosts = keeper.hosts(alloc)?;
    let mut all = Vec::new(alloc);
    for host in hosts.as_slice() {
        let rows = keeper.load(alloc, host.as_str())?;
        add_rows(&mut all, rows)?;
    }
    Ok(Rows::from_vec(all))
}

/// Adds rows behind others.
fn add_rows(all: &mut Vec<Row>, rows: Rows) -> Result<(), NoMemory>
    ensures { OnOk result (all.new.items ≡ all.old.items ++ rows) }
{
    all.append(&mut rows.into_vec())?;
    Ok(())
}

/// Commits changes: where the keeper told rows, it tells just the changed ones, in their order, and
/// a crash leaves these and no others; at a refusal it tells the same.
pub fn save<K: Keeper>(
    alloc: Global,
    keeper: &mut K,
    changes: &RowChanges,
) -> Result<(), KeeperRefusal>
    ensures saved { OnOk result ((rows after : List RowData) → K.tells keeper.old rows
        → K.tells keeper.new after → after ≡ changed_rows rows changes.now) }
    ensures rises { (after : List RowData) → K.tells keeper.new after → RowsRise after }
    ensures durable { K.undisturbed keeper.new → OnOk result ((rows : List RowData)
        → K.tells keeper.old rows → LeavesJust (changed_rows rows changes.now) (K.leaves keeper.new)) }
    ensures refused { OnErr result (TellsSame (K.tells keeper.old) (K.tells keeper.new)) }
{
    keeper.commit(alloc, changes)
}
