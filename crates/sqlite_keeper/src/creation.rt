//! The creation of the table.

ghost use Rattle.std.specs.Prelude.{◌≡◌, false, List, IsTrue, OnOk, IfErr};
ghost use Rattle.jar_types.specs.declared.row.Row.{Row as RowData};
ghost use Rattle.sqlite.specs.State.{HasCleanDisk};
ghost use Rattle.sqlite.specs.Held.{state};
ghost use Rattle.sqlite_keeper.specs.TableRows.{FindsRows, ShowsRows};
ghost use Rattle.sqlite_keeper.specs.Changing.{RefusesTable};

use sqlite::{Alter, Connection, Error};

/// Makes the table where it isn't there, in a transaction of its own.
pub fn make_table<S: Alter>(conn: &mut Connection<S>) -> Result<(), Error>
    requires { conn.old.in_transaction ≡ false }
    ensures mode { conn.new.in_transaction ≡ false }
    ensures limit { conn.new.step_limit ≡ conn.old.step_limit }
    ensures made { HasCleanDisk (state S.Store conn.new) → OnOk result ((rows : List RowData)
        → FindsRows (state S.Store conn.old).now rows → ShowsRows (state S.Store conn.new) rows) }
    ensures open { HasCleanDisk (state S.Store conn.new)
        → OnOk result (IsTrue (state S.Store conn.new).is_open) }
    ensures refused { HasCleanDisk (state S.Store conn.new) → IfErr result
        (RefusesTable S.Store (state S.Store conn.old) (state S.Store conn.new)) }
{
    let mut tx = conn.transaction();
    tx.execute(
        "CREATE TABLE IF NOT EXISTS cookies(host TEXT NOT NULL, name TEXT NOT NULL, path TEXT NOT NULL, value TEXT NOT NULL, creation INTEGER NOT NULL, expiry INTEGER NOT NULL, access INTEGER NOT NULL, secure INTEGER NOT NULL, http_only INTEGER NOT NULL, same_site INTEGER NOT NULL, priority INTEGER NOT NULL, PRIMARY KEY(host, name, path)) STRICT",
        &[],
    )?;
    tx.commit()
}
