//! The file of a store: what was committed is found when it is opened again.

mod failing;
mod reports;

ghost use Rattle.std.specs.Prelude.{◌≡◌, false, None};

use jar_keeper::Keeper;
use jar_types::{NoMemory, Row, RowChange, RowChanges, Text};
use sqlite::{Alter, Connection};
use sqlite_keeper::SqliteKeeper;
use std::alloc::Global;
use std::test::Fail;

/// The file, in the folder that the tests run in.
const FILE: &str = "tests.db";

/// The change that puts one row.
fn one_put(alloc: Global) -> Result<RowChanges, NoMemory> {
    let row = Row {
        host: Text::of(alloc, "h.test")?,
        name: Text::of(alloc, "id")?,
        path: Text::of(alloc, "/")?,
        value: Text::of(alloc, "7")?,
        creation: 0,
        expiry: 60_000,
        access: 0,
        secure: 0,
        http_only: 0,
        same_site: 0,
        priority: 0,
    };
    let mut changes = RowChanges::new(alloc);
    changes.push(RowChange::Put(row))?;
    Ok(changes)
}

/// Commits the row, and gives the connection back.
fn committed<S: Alter + Drop>(alloc: Global, conn: Connection<S>) -> Result<Connection<S>, Fail>
    requires mode { conn.in_transaction ≡ false }
    requires unlimited { conn.step_limit ≡ None }
{
    let changes = one_put(alloc)?;
    let Ok(mut keeper) = SqliteKeeper::over(conn) else {
        return Err("no keeper".into());
    };
    if keeper.commit(alloc, &changes).is_err() {
        return Err("the commit failed".into());
    }
    Ok(keeper.into_connection())
}

/// How many rows of the host there are.
fn count<S: Alter + Drop>(alloc: Global, conn: Connection<S>) -> Result<usize, Fail>
    requires mode { conn.in_transaction ≡ false }
    requires unlimited { conn.step_limit ≡ None }
{
    let Ok(mut keeper) = SqliteKeeper::over(conn) else {
        return Err("no keeper".into());
    };
    match keeper.load(alloc, "h.test") {
        Ok(rows) => Ok(rows.len()),
        Err(_) => Err("the load failed".into()),
    }
}

/// Opens the file, commits the row, and closes it.
fn write(rt: &HostRuntime) -> Result<(), Fail> {
    match Connection::open(rt, FILE) {
        Ok(conn) => {
            let conn = committed(rt.alloc(), conn)?;
            if conn.close().is_err() {
                return Err("the file wasn't closed".into());
            }
            Ok(())
        }
        Err(_) => Err("no file".into()),
    }
}

#[test]
fn a_committed_row_is_found_when_its_file_is_opened_again(rt: HostRuntime) -> Result<(), Fail> {
    write(&rt)?;
    let Ok(conn) = Connection::open(&rt, FILE) else {
        return Err("no file".into());
    };
    assert_eq!(rt; count(rt.alloc(), conn)?, 1);
    Ok(())
}
