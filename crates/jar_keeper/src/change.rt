//! Changes of rows.

ghost use Rattle.std.specs.Prelude.{◌≡◌, ◌++◌, ◌∷◌, IfOk};
ghost use Rattle.jar_types.specs.Orders.{put_by};
ghost use Rattle.jar_types.specs.RowChanges as spec;
ghost use Rattle.jar_types.specs.declared.row.RowChange.TheVariants.{Drop as Dropped};

use crate::order::{id_order, row_cmp};
use jar_types::{CookieId, NoMemory, Row, RowChange, Rows};
use std::alloc::Global;

/// The rows after these changes, one after another.
pub fn changed(alloc: Global, rows: &Rows, changes: &[RowChange]) -> Result<Rows, NoMemory>
    ensures { IfOk result (λ after. after ≡ spec.changed_rows rows.now changes.now) }
{
    let mut after = rows.copy(alloc)?.into_vec();
    for change in changes {
        after = changed_once(alloc, after, change)?;
    }
    Ok(Rows::from_vec(after))
}

/// The rows after one change.
fn changed_once(alloc: Global, rows: Vec<Row>, change: &RowChange) -> Result<Vec<Row>, NoMemory>
    ensures { IfOk result (λ after. after.items ≡ spec.rows_after rows.items change.now) }
{
    match change {
        RowChange::Put(row) => put(alloc, rows, row.copy(alloc)?),
        RowChange::Drop(id) => {
            let mut left = rows;
            take_out(&mut left, id);
            Ok(left)
        }
    }
}

/// Takes out the row that has an id.
fn take_out(rows: &mut Vec<Row>, id: &CookieId)
    ensures { rows.new.items ≡ spec.rows_after rows.old.items (Dropped id.now) }
{
    rows.retain(|row| !id_order(id, row).is_eq());
}

/// The rows of lesser ids, then this row, then those of greater ids.
fn put(alloc: Global, rows: Vec<Row>, row: Row) -> Result<Vec<Row>, NoMemory>
    ensures { IfOk result (λ all. all.items ≡ put_by spec.row_cmp row rows.items) }
{
    let mut lesser = Vec::new(alloc);
    let mut greater = Vec::new(alloc);
    for other in rows {
        let order = row_cmp(&other, &row);
        if order.is_lt() {
            lesser.push(other)?;
        } else if order.is_gt() {
            greater.push(other)?;
        }
    }
    joined(lesser, row, greater)
}

/// A row between two lists of them.
fn joined(mut lesser: Vec<Row>, row: Row, mut greater: Vec<Row>) -> Result<Vec<Row>, NoMemory>
    ensures { IfOk result (λ all. all.items ≡ lesser.items ++ (row ∷ greater.items)) }
{
    lesser.push(row)?;
    lesser.append(&mut greater)?;
    Ok(lesser)
}
