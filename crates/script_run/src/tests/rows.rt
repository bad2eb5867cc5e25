//! Keepers of stored rows for the tests of loads and commits.

use super::no_rows;
use jar_keeper::{Keeper, MemKeeper};
use jar_types::{NoMemory, Row, RowChange, RowChanges, Text};
use std::alloc::Global;
use std::test::Fail;

/// The row of a cookie with this value, which expires after 1,000 seconds.
pub fn row(alloc: Global, host: &str, name: &str, value: &str) -> Result<Row, NoMemory> {
    Ok(Row {
        host: Text::of(alloc, host)?,
        name: Text::of(alloc, name)?,
        path: Text::of(alloc, "/")?,
        value: Text::of(alloc, value)?,
        creation: 0,
        expiry: 1_000_000,
        access: 0,
        secure: 0,
        http_only: 0,
        same_site: 0,
        priority: 0,
    })
}

/// A keeper of these rows, whose calls fail at these numbers.
pub fn keeper_of(alloc: Global, rows: Vec<Row>, failing: &[u64]) -> Result<MemKeeper, Fail> {
    let mut changes = RowChanges::new(alloc);
    for row in rows {
        changes.push(RowChange::Put(row))?;
    }
    let mut first = no_rows(alloc);
    if first.commit(alloc, &changes).is_err() {
        return Err("the rows weren't taken".into());
    }
    let rows = first.rows().copy(alloc)?;
    Ok(MemKeeper::of(alloc, rows, Vec::from_slice(alloc, failing)?))
}

/// A keeper of one row of `.a.test` and one of `www.a.test`, which have one key under the rule `test`,
/// and one of `b.test`; its calls fail at these numbers.
pub fn two_keys(alloc: Global, failing: &[u64]) -> Result<MemKeeper, Fail> {
    let mut rows = Vec::new(alloc);
    rows.push(row(alloc, ".a.test", "x", "1")?)?;
    rows.push(row(alloc, "b.test", "z", "3")?)?;
    rows.push(row(alloc, "www.a.test", "y", "2")?)?;
    keeper_of(alloc, rows, failing)
}
