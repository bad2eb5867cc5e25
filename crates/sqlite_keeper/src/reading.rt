//! The statements that read the table, each in a transaction of its own, which it rolls back.

ghost use Rattle.std.specs.Prelude.{◌≡◌, false, List, IfOk, IsTrue, OnOk, map};
ghost use Rattle.jar_keeper.specs.HostRows.{rows_of_host};
ghost use Rattle.jar_types.specs.declared.row.Row.{Row as RowData};
ghost use Rattle.sqlite.specs.State.{HasCleanDisk, Survives};
ghost use Rattle.sqlite.specs.Held.{state};
ghost use Rattle.sqlite_keeper.specs.TableRows.{ShowsIfOpen, host_cells, shown_cells};

use sqlite::{Alter, Connection, Error, Row as Cells, params};

/// The host of each row, in the order of their ids.
pub fn list_hosts<S: Alter>(conn: &mut Connection<S>) -> Result<Vec<Cells>, Error>
    requires { conn.old.in_transaction ≡ false }
    ensures rows { HasCleanDisk (state S.Store conn.new) → IfOk result (λ out. (rows : List RowData)
        → ShowsIfOpen (state S.Store conn.old) rows → out.items ≡ map host_cells rows) }
    ensures open { HasCleanDisk (state S.Store conn.new)
        → OnOk result (IsTrue (state S.Store conn.old).is_open) }

    ensures mode { conn.new.in_transaction ≡ false }
    ensures kept { HasCleanDisk (state S.Store conn.new) → (rows : List RowData)
        → ShowsIfOpen (state S.Store conn.old) rows → ShowsIfOpen (state S.Store conn.new) rows }
    ensures survives { Survives (state S.Store conn.old) (state S.Store conn.new) (λ _. ⊥) }
{
    let mut tx = conn.transaction();
    tx.query_all("SELECT host FROM cookies ORDER BY host, name, path", &[])
}

/// The rows of a host without it, in the order of their ids.
pub fn list_rows<S: Alter>(conn: &mut Connection<S>, host: &str) -> Result<Vec<Cells>, Error>
    requires { conn.old.in_transaction ≡ false }
    ensures rows { HasCleanDisk (state S.Store conn.new) → IfOk result (λ out. (rows : List RowData)
        → ShowsIfOpen (state S.Store conn.old) rows
        → out.items ≡ map shown_cells (rows_of_host host.now rows)) }
    ensures open { HasCleanDisk (state S.Store conn.new)
        → OnOk result (IsTrue (state S.Store conn.old).is_open) }

    ensures mode { conn.new.in_transaction ≡ false }
    ensures kept { HasCleanDisk (state S.Store conn.new) → (rows : List RowData)
        → ShowsIfOpen (state S.Store conn.old) rows → ShowsIfOpen (state S.Store conn.new) rows }
    ensures survives { Survives (state S.Store conn.old) (state S.Store conn.new) (λ _. ⊥) }
{
    let mut tx = conn.transaction();
    tx.query_all(
        "SELECT name, path, value, creation, expiry, access, secure, http_only, same_site, priority FROM cookies WHERE host = ?1 ORDER BY name, path",
        params![host],
    )
}
