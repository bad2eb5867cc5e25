//! The keeper over SQLite.

ghost use Rattle.std.specs.Prelude.{◌≡◌, ◌↔◌, [], false, None, Ok, List, IfOk, IfErr, IsErr, OnErr};
ghost use Rattle.jar_keeper.specs.Keepers.{LeavesJust, CountsFault};
ghost use Rattle.jar_types.specs.declared.row.Row.{Row as RowData};
ghost use Rattle.sqlite.specs.Held.{state};
ghost use Rattle.sqlite.specs.State.{HasCleanDisk};
ghost use Rattle.sqlite_keeper.specs.Changing.{RefusesOver};
ghost use Rattle.sqlite_keeper.specs.Kept.{TellsTable, IsUndisturbed, MayLeaveTable};
ghost use Rattle.sqlite_keeper.specs.TableRows.{FindsRows, ShowsIfOpen};
ghost use Rattle.sqlite_keeper.specs.Laws.{told_rise, told_once};
ghost use Rattle.sqlite_keeper.specs.declared.refusal.OverRefusal.TheVariants.{Refused};

use crate::committed::Committed;
use crate::creation::make_table;
use crate::decoding::{hosts_shown, rows_shown};
use crate::reading::{list_hosts, list_rows};
use crate::refusal::{OverFail, is_memory, refusal_of};
use crate::writing::commit_changes;
use jar_keeper::{Keeper, KeeperRefusal};
use jar_types::{RowChanges, Rows, Texts};
use sqlite::{Alter, Connection, Error};
use std::alloc::Global;
use std::marker::Model;
use std::snapshot::Snapshot;

/// A keeper of cookie rows in the table `cookies` of a database of SQLite.
///
/// This jar's own rule: docs/DEFINITIONS.md.
#[derive(Drop)]
pub struct SqliteKeeper<S: Alter> {
    conn: Connection<S>,
    found: Snapshot<Connection<S>>,
    committed: Committed,
    faults: u64,
}

impl<S: Alter> Model for SqliteKeeper<S> {
    ghost use Rattle.sqlite_keeper.specs.Kept.{KeptTable, kept_code, IsKept};

    ghost Value = { KeptTable S };

    ghost coded = { kept_code S.code };

    ghost view = { λ k. record {
      conn = k.conn;
      found = k.found.value;
      committed = k.committed.changes;
      faults = k.faults;
    } };

    ghost invariant = { λ k. IsKept S.Store (record {
      conn = k.conn;
      found = k.found.value;
      committed = k.committed.changes;
      faults = k.faults;
    }) };
}

impl<S: Alter> SqliteKeeper<S> {
    /// A keeper over this connection, in which it makes the table where it isn't there.
    ///
    /// It tells no rows where the database was empty, and else the rows of the table, where it is
    /// that of the creation text with rowids that rise, and the only one.
    /// Where the creation text is refused it hands the connection back: Refused for another cause
    /// than memory.
    pub fn over(mut conn: Connection<S>) -> Result<SqliteKeeper<S>, OverFail<S>>
        requires mode { conn.in_transaction ≡ false }
        requires unlimited { conn.step_limit ≡ None }

        ensures tells { IfOk result (λ keeper. (rows : List RowData)
            → TellsTable S.Store keeper rows ↔ FindsRows (state S.Store conn).now rows) }
        ensures faults { IfOk result (λ keeper. keeper.faults ≡ 0) }
        ensures leaves { IfOk result (λ keeper. IsUndisturbed S.Store keeper → (rows : List RowData)
            → TellsTable S.Store keeper rows → LeavesJust rows (MayLeaveTable S.Store keeper)) }

        ensures refused { IfErr result (λ fail. HasCleanDisk (state S.Store fail.conn)
            → fail.refusal ≡ Refused
            → RefusesOver S.Store (state S.Store conn) (state S.Store fail.conn)) }
        ensures handed { IfErr result (λ fail. (fail.conn.in_transaction ≡ false)
            × (fail.conn.step_limit ≡ None)) }
    {
        let found = Snapshot::of(&conn);
        match make_table(&mut conn) {
            Ok(()) => Ok(SqliteKeeper {
                conn,
                found,
                committed: Committed::new(),
                faults: 0,
            }),
            Err(error) => Err(OverFail {
                conn,
                refusal: refusal_of(error),
            }),
        }
    }

    /// The connection, with the rows of the keeper. It takes no memory.
    pub fn into_connection(self) -> Connection<S>
        ensures same { result ≡ self.conn }
        ensures mode { (result.in_transaction ≡ false) × (result.step_limit ≡ None) }
        ensures rows { HasCleanDisk (state S.Store result) → (rows : List RowData)
            → TellsTable S.Store self rows → ShowsIfOpen (state S.Store result) rows }
    {
        self.conn
    }
}

/// What a statement answered; a refusal for another cause than memory is counted.
fn counted<T: Drop>(faults: &mut u64, answer: Result<T, Error>) -> Result<T, KeeperRefusal>
    ensures ok { IfOk result (λ value. answer ≡ Ok value) }
    ensures err { OnErr result (IsErr answer) }
    ensures count { CountsFault faults.old faults.new result }
{
    match answer {
        Ok(value) => Ok(value),
        Err(error) => {
            if is_memory(&error) {
                return Err(KeeperRefusal::NoMemory);
            }
            *faults = faults.saturating_add(1);
            Err(KeeperRefusal::Failed)
        }
    }
}

impl<S: Alter> Keeper for SqliteKeeper<S> {
    ghost tells = { TellsTable S.Store };

    ghost undisturbed = { IsUndisturbed S.Store };

    ghost leaves = { MayLeaveTable S.Store };

    ghost faults = { λ keeper. keeper.faults };

    fn hosts(&mut self, alloc: Global) -> Result<Texts, KeeperRefusal> {
        let shown = counted(&mut self.faults, list_hosts(&mut self.conn))?;
        Ok(hosts_shown(alloc, shown.as_slice())?)
    }

    fn load(&mut self, alloc: Global, host: &str) -> Result<Rows, KeeperRefusal> {
        let shown = counted(&mut self.faults, list_rows(&mut self.conn, host))?;
        Ok(rows_shown(alloc, host, shown.as_slice())?)
    }

    fn commit(&mut self, _alloc: Global, changes: &RowChanges) -> Result<(), KeeperRefusal> {
        counted(
            &mut self.faults,
            commit_changes(&mut self.conn, changes.as_slice()),
        )?;
        self.committed.note(changes.as_slice());
        Ok(())
    }

    ghost told_rise = { λ keeper rows told. told_rise keeper.committed rows told };

    ghost told_once = { λ keeper rows others told also. told_once keeper.committed rows others told also };

    ghost left_rise = { λ keeper rows left. left.2.rise };
}
