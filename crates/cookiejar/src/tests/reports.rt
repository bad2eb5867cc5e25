//! Scripts over stored rows of a database: their reports are those over a keeper in memory.

use super::failing::FailsAt;
use crate::no_rows;
use jar_edge::{MemSink, MemSource};
use jar_keeper::Keeper;
use jar_types::{NoMemory, Row, RowChange, RowChanges, Text};
use script_run::serial_tool;
use sqlite::{Connection, MemStore};
use sqlite_keeper::SqliteKeeper;
use std::alloc::Global;
use std::test::Fail;

/// The change that puts the row of a cookie with this value, which expires after 1,000 seconds.
fn put(alloc: Global, host: &str, name: &str, value: &str) -> Result<RowChange, NoMemory> {
    Ok(RowChange::Put(Row {
        host: Text::of(alloc, host)?,
        name: Text::of(alloc, name)?,
        path: Text::of(alloc, "/")?,
        value: Text::of(alloc, value)?,
        creation: 0,
        expiry: 1_000_000,
        access: 0,
        secure: 0,
        http_only: 0,
        same_site: 0,
        priority: 0,
    }))
}

/// Commits rows of two hosts that have one key under the rule `test`, and of a third.
fn fill<K: Keeper>(alloc: Global, keeper: &mut K) -> Result<(), Fail> {
    let mut changes = RowChanges::new(alloc);
    changes.push(put(alloc, ".a.test", "x", "1")?)?;
    changes.push(put(alloc, "b.test", "z", "3")?)?;
    changes.push(put(alloc, "www.a.test", "y", "2")?)?;
    if keeper.commit(alloc, &changes).is_err() {
        return Err("the rows weren't taken".into());
    }
    Ok(())
}

/// What a run came to: its status, what it wrote, and how many entries its journal has.
#[derive(Drop)]
struct Ran {
    status: u8,
    written: Vec<u8>,
    entries: usize,
}

/// A run of `serial` over a keeper, once the rows are committed to it, of whose calls from then on the
/// one of this number fails.
fn run<K: Keeper + Drop>(
    alloc: Global,
    script: &str,
    mut keeper: K,
    call: u64,
) -> Result<Ran, Fail> {
    fill(alloc, &mut keeper)?;
    let bytes = Vec::from_slice(alloc, script.as_bytes())?;
    let mut source = MemSource::of(bytes, 4096, Vec::new(alloc));
    let mut sink = MemSink::of(alloc, 16_384, 4096, Vec::new(alloc))?;
    let keeper = FailsAt::of(keeper, call);
    let outcome = serial_tool(alloc, &["serial"], &mut source, &mut sink, keeper);
    Ok(Ran {
        status: outcome.status,
        written: Vec::from_slice(alloc, sink.written())?,
        entries: outcome.journal.len(),
    })
}

/// A keeper over an empty database in memory.
fn in_database(alloc: Global) -> Result<SqliteKeeper<MemStore>, Fail> {
    match SqliteKeeper::over(Connection::open_in_memory(alloc)?) {
        Ok(keeper) => Ok(keeper),
        Err(_) => Err("no keeper".into()),
    }
}

/// Whether a script ends over a database with this status and so many entries, and with the bytes that
/// it writes over a keeper in memory.
fn is_the_same(
    alloc: Global,
    script: &str,
    call: u64,
    status: u8,
    entries: usize,
) -> Result<bool, Fail> {
    let stored = run(alloc, script, in_database(alloc)?, call)?;
    let in_memory = run(alloc, script, no_rows(alloc), call)?;
    Ok(
        stored.status == status
            && stored.entries == entries
            && in_memory.status == status
            && stored.written.as_slice() == in_memory.written.as_slice(),
    )
}

/// A get of `b.test`, and then all cookies.
const ORDER: &str =
    "{\"actors\":[{\"kind\":\"fetch\",\"steps\":[{\"now\":0,\"op\":\"get\",\"url\":\"https://b.test/\"},{\"now\":0,\"op\":\"all\"}]}],\"suffixes\":\"test\"}";

#[test]
fn what_is_waited_for_is_loaded_first(rt: HostRuntime) -> Result<(), Fail> {
    assert!(rt; is_the_same(rt.alloc(), ORDER, 0, 0, 9)?);
    Ok(())
}

/// Two gets of `b.test`.
const TWICE: &str =
    "{\"actors\":[{\"kind\":\"fetch\",\"steps\":[{\"now\":0,\"op\":\"get\",\"url\":\"https://b.test/\"},{\"now\":0,\"op\":\"get\",\"url\":\"https://b.test/\"}]}],\"suffixes\":\"test\"}";

#[test]
fn a_lost_load_is_told_once_and_made_up_for(rt: HostRuntime) -> Result<(), Fail> {
    assert!(rt; is_the_same(rt.alloc(), TWICE, 2, 6, 11)?);
    Ok(())
}
