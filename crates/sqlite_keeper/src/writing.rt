//! The statements that change the table, in one transaction.

ghost use Rattle.std.specs.Prelude.{◌≡◌, ◌∷◌, [], false, List, IsTrue, IsUtf8, OnErr, OnOk};
ghost use Rattle.jar_types.specs.RowChanges.{changed_rows};
ghost use Rattle.jar_types.specs.declared.row.Row.{Row as RowData};
ghost use Rattle.jar_types.specs.declared.row.RowChange.TheVariants as change;
ghost use Rattle.sqlite.specs.Held.{state};
ghost use Rattle.sqlite.specs.State.{HasCleanDisk, Survives};
ghost use Rattle.sqlite.specs.Values.{bound};
ghost use Rattle.sqlite_keeper.specs.Changing.{MakesOrKeeps};
ghost use Rattle.sqlite_keeper.specs.CookieTable.{put_text};
ghost use Rattle.sqlite_keeper.specs.TableRows.{HasUtf8, ShowsIfOpen, ShowsRows, TreesHold, row_cells};

use jar_types::{CookieId, Row, RowChange, Text};
use sqlite::types::ValueRef;
use sqlite::{Alter, Connection, Error, Statement, Transaction, params};

/// Makes these changes of the rows in one transaction. At a refusal none is made.
pub fn commit_changes<S: Alter>(
    conn: &mut Connection<S>,
    changes: &[RowChange],
) -> Result<(), Error>
    requires { conn.old.in_transaction ≡ false }
    ensures done { HasCleanDisk (state S.Store conn.new) → OnOk result ((rows : List RowData)
        → ShowsIfOpen (state S.Store conn.old) rows
        → ShowsRows (state S.Store conn.new) (changed_rows rows changes.now)) }
    ensures open { HasCleanDisk (state S.Store conn.new)
        → OnOk result (IsTrue (state S.Store conn.new).is_open) }

    ensures mode { conn.new.in_transaction ≡ false }
    ensures kept { HasCleanDisk (state S.Store conn.new) → OnErr result ((rows : List RowData)
        → ShowsIfOpen (state S.Store conn.old) rows → ShowsIfOpen (state S.Store conn.new) rows) }
    ensures survives { Survives (state S.Store conn.old) (state S.Store conn.new) (λ trees. (rows : List RowData)
        → ShowsIfOpen (state S.Store conn.old) rows → TreesHold trees (changed_rows rows changes.now)) }
{
    let mut tx = conn.transaction();
    write_changes(&mut tx, changes)?;
    tx.commit()
}

/// Makes these changes of the rows inside a transaction, one after another.
fn write_changes<S: Alter>(tx: &mut Transaction<'_, S>, changes: &[RowChange]) -> Result<(), Error>
    ensures same_reference { tx.new.conn.ghost_name ≡ tx.old.conn.ghost_name }
    ensures runs { HasCleanDisk (state S.Store tx.new.conn.now)
        → IsTrue (state S.Store tx.old.conn.now).in_transaction
        → MakesOrKeeps changes.now (state S.Store tx.old.conn.now) (state S.Store tx.new.conn.now) result }
    ensures survives { Survives (state S.Store tx.old.conn.now) (state S.Store tx.new.conn.now) (λ _. ⊥) }
{
    let put = tx.prepare(
        "INSERT INTO cookies(host, name, path, value, creation, expiry, access, secure, http_only, same_site, priority) VALUES(?1, ?2, ?3, ?4, ?5, ?6, ?7, ?8, ?9, ?10, ?11) ON CONFLICT(host, name, path) DO UPDATE SET value = excluded.value, creation = excluded.creation, expiry = excluded.expiry, access = excluded.access, secure = excluded.secure, http_only = excluded.http_only, same_site = excluded.same_site, priority = excluded.priority",
    )?;
    write_each(tx, &put, changes)
}

/// Makes these changes of the rows inside a transaction, by this statement of a put.
fn write_each<S: Alter>(
    tx: &mut Transaction<'_, S>,
    put: &Statement,
    changes: &[RowChange],
) -> Result<(), Error>
    ensures same_reference { tx.new.conn.ghost_name ≡ tx.old.conn.ghost_name }
    ensures runs { put.now.text ≡ put_text → HasCleanDisk (state S.Store tx.new.conn.now)
        → IsTrue (state S.Store tx.old.conn.now).in_transaction
        → IsTrue (state S.Store tx.old.conn.now).is_open
        → MakesOrKeeps changes.now (state S.Store tx.old.conn.now) (state S.Store tx.new.conn.now) result }
    ensures survives { Survives (state S.Store tx.old.conn.now) (state S.Store tx.new.conn.now) (λ _. ⊥) }
{
    for change in changes {
        write_change(tx, put, change)?;
    }
    Ok(())
}

/// Makes one change inside a transaction.
fn write_change<S: Alter>(
    tx: &mut Transaction<'_, S>,
    put: &Statement,
    change: &RowChange,
) -> Result<usize, Error>
    ensures same_reference { tx.new.conn.ghost_name ≡ tx.old.conn.ghost_name }
    ensures runs { put.now.text ≡ put_text → HasCleanDisk (state S.Store tx.new.conn.now)
        → IsTrue (state S.Store tx.old.conn.now).in_transaction
        → MakesOrKeeps (change.now ∷ []) (state S.Store tx.old.conn.now) (state S.Store tx.new.conn.now) result }
    ensures survives { Survives (state S.Store tx.old.conn.now) (state S.Store tx.new.conn.now) (λ _. ⊥) }
{
    match change {
        RowChange::Put(row) => put_row(tx, put, row),
        RowChange::Drop(id) => drop_row(tx, id),
    }
}

/// Puts a row in the place of its id, inside a transaction.
fn put_row<S: Alter>(
    tx: &mut Transaction<'_, S>,
    put: &Statement,
    row: &Row,
) -> Result<usize, Error>
    ensures same_reference { tx.new.conn.ghost_name ≡ tx.old.conn.ghost_name }
    ensures runs { put.now.text ≡ put_text → HasCleanDisk (state S.Store tx.new.conn.now)
        → IsTrue (state S.Store tx.old.conn.now).in_transaction
        → MakesOrKeeps (change.Put row.now ∷ []) (state S.Store tx.old.conn.now) (state S.Store tx.new.conn.now) result }
    ensures survives { Survives (state S.Store tx.old.conn.now) (state S.Store tx.new.conn.now) (λ _. ⊥) }
{
    tx.execute_prepared(put, &values_of(row))
}

/// Drops the row of an id, inside a transaction.
fn drop_row<S: Alter>(tx: &mut Transaction<'_, S>, id: &CookieId) -> Result<usize, Error>
    ensures same_reference { tx.new.conn.ghost_name ≡ tx.old.conn.ghost_name }
    ensures runs { HasCleanDisk (state S.Store tx.new.conn.now)
        → IsTrue (state S.Store tx.old.conn.now).in_transaction
        → MakesOrKeeps (change.Drop id.now ∷ []) (state S.Store tx.old.conn.now) (state S.Store tx.new.conn.now) result }
    ensures survives { Survives (state S.Store tx.old.conn.now) (state S.Store tx.new.conn.now) (λ _. ⊥) }
{
    tx.execute(
        "DELETE FROM cookies WHERE host = ?1 AND name = ?2 AND path = ?3",
        params![id.host.as_str(), id.name.as_str(), id.path.as_str()],
    )
}

/// The values of a row, column by column.
fn values_of(row: &Row) -> [ValueRef<'_>; 11]
    ensures value { bound result ≡ row_cells row.now }
    ensures texts { HasUtf8 row.now }
{
    [
        ValueRef::Text(bytes_of(&row.host)),
        ValueRef::Text(bytes_of(&row.name)),
        ValueRef::Text(bytes_of(&row.path)),
        ValueRef::Text(bytes_of(&row.value)),
        ValueRef::Int(row.creation),
        ValueRef::Int(row.expiry),
        ValueRef::Int(row.access),
        ValueRef::Int(row.secure),
        ValueRef::Int(row.http_only),
        ValueRef::Int(row.same_site),
        ValueRef::Int(row.priority),
    ]
}

/// The bytes of a text.
fn bytes_of(text: &Text) -> &[u8]
    ensures value { result.now ≡ text.now }
    ensures utf8 { IsUtf8 text.now }
{
    text.as_str().as_bytes()
}
