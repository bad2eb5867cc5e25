//! Keepers over databases in memory, and over disks in memory that stop.

mod stops;

ghost use Rattle.std.specs.Prelude.{◌≡◌, false, None, IfOk};

use crate::{OverRefusal, SqliteKeeper};
use jar_keeper::Keeper;
use jar_types::{CookieId, NoMemory, Row, RowChange, RowChanges, Text};
use sqlite::types::ValueRef;
use sqlite::{Alter, Connection, Error, MemStore};
use std::alloc::{AllocError, Global};
use std::test::Fail;

/// A row of a host under a name and a value.
fn row(alloc: Global, host: &str, name: &str, value: &str) -> Result<Row, NoMemory> {
    Ok(Row {
        host: Text::of(alloc, host)?,
        name: Text::of(alloc, name)?,
        path: Text::of(alloc, "/")?,
        value: Text::of(alloc, value)?,
        creation: 1,
        expiry: 2,
        access: 3,
        secure: 0,
        http_only: 1,
        same_site: 2,
        priority: 1,
    })
}

/// The change that puts a row of a host under a name and a value; without a value it drops it.
fn change(alloc: Global, part: &[&str; 3]) -> Result<RowChange, NoMemory> {
    if !part[2].is_empty() {
        return Ok(RowChange::Put(row(alloc, part[0], part[1], part[2])?));
    }
    Ok(RowChange::Drop(CookieId {
        host: Text::of(alloc, part[0])?,
        name: Text::of(alloc, part[1])?,
        path: Text::of(alloc, "/")?,
    }))
}

/// The changes of these hosts, names and values.
fn changes(alloc: Global, parts: &[[&str; 3]]) -> Result<RowChanges, NoMemory> {
    let mut list = RowChanges::new(alloc);
    for part in parts {
        list.push(change(alloc, part)?)?;
    }
    Ok(list)
}

/// A keeper over a connection.
fn over<S: Alter + Drop>(conn: Connection<S>) -> Result<SqliteKeeper<S>, OverRefusal>
    requires mode { conn.in_transaction ≡ false }
    requires unlimited { conn.step_limit ≡ None }
{
    match SqliteKeeper::over(conn) {
        Ok(keeper) => Ok(keeper),
        Err(fail) => Err(fail.refusal),
    }
}

/// Adds rows as text: host, name and value of each.
fn add_text(text: &mut String, rows: &[Row]) -> Result<(), AllocError> {
    for row in rows {
        text.push_str(row.host.as_str())?;
        text.push_str(" ")?;
        text.push_str(row.name.as_str())?;
        text.push_str("=")?;
        text.push_str(row.value.as_str())?;
        text.push_str(";")?;
    }
    Ok(())
}

/// The rows of a keeper as text, host after host.
fn text_of<K: Keeper>(alloc: Global, keeper: &mut K) -> Result<String, Fail> {
    let mut text = String::new(alloc);
    let hosts = keeper.hosts(alloc)?;
    for host in hosts.as_slice() {
        let rows = keeper.load(alloc, host.as_str())?;
        add_text(&mut text, rows.as_slice())?;
    }
    Ok(text)
}

/// Whether the rows of a keeper are those of a text.
fn has<K: Keeper>(alloc: Global, keeper: &mut K, expected: &str) -> Result<bool, Fail> {
    Ok(text_of(alloc, keeper)?.as_str() == expected)
}

/// Commits these changes.
fn save<K: Keeper>(alloc: Global, keeper: &mut K, parts: &[[&str; 3]]) -> Result<(), Fail> {
    let list = changes(alloc, parts)?;
    keeper.commit(alloc, &list)?;
    Ok(())
}

/// Runs a statement of another owner of the database.
fn run<S: Alter>(conn: &mut Connection<S>, sql: &str) -> Result<(), Error>
    ensures unlimited { conn.new.step_limit ≡ conn.old.step_limit }
{
    conn.execute(sql, &[])?;
    Ok(())
}

/// Runs a statement of another owner, with a text of these bytes as its parameter.
fn run_with_text<S: Alter>(conn: &mut Connection<S>, sql: &str, text: &[u8]) -> Result<(), Error>
    ensures unlimited { conn.new.step_limit ≡ conn.old.step_limit }
{
    conn.execute(sql, &[ValueRef::Text(text)])?;
    Ok(())
}

/// The number that a query of another owner answers.
fn number<S: Alter>(conn: &mut Connection<S>, sql: &str) -> Result<i64, Error> {
    conn.query_row(sql, &[])?.get(0)
}

/// Four changes of three ids.
const ROWS: [[&str; 3]; 4] = [
    ["b.test", "x", "1"],
    ["a.test", "y", "2"],
    ["a.test", "x", "3"],
    ["a.test", "y", "4"],
];

#[test]
fn a_keeper_gives_what_was_committed(rt: HostRuntime) -> Result<(), Fail> {
    let alloc = rt.alloc();
    let mut keeper = over(Connection::open_in_memory(alloc)?)?;
    assert!(rt; has(alloc, &mut keeper, "")?);
    save(alloc, &mut keeper, &ROWS)?;
    assert!(rt; has(alloc, &mut keeper, "a.test x=3;a.test y=4;b.test x=1;")?);
    save(
        alloc,
        &mut keeper,
        &[["a.test", "x", ""], ["c.test", "x", ""]],
    )?;
    assert!(rt; has(alloc, &mut keeper, "a.test y=4;b.test x=1;")?);
    Ok(())
}

#[test]
fn a_table_that_was_there_is_kept(rt: HostRuntime) -> Result<(), Fail> {
    let alloc = rt.alloc();
    let mut first = over(Connection::open_in_memory(alloc)?)?;
    save(alloc, &mut first, &ROWS)?;
    let mut again = over(first.into_connection())?;
    save(alloc, &mut again, &[["b.test", "x", "5"]])?;
    assert!(rt; has(alloc, &mut again, "a.test x=3;a.test y=4;b.test x=5;")?);
    Ok(())
}

/// A connection in which another table has one row, the number 7.
fn with_other_table(alloc: Global) -> Result<Connection<MemStore>, Error>
    ensures { IfOk result (λ conn. conn.step_limit ≡ None) }
{
    let mut conn = Connection::open_in_memory(alloc)?;
    run(&mut conn, "CREATE TABLE other(number INTEGER) STRICT")?;
    run(&mut conn, "INSERT INTO other VALUES(7)")?;
    Ok(conn)
}

/// A keeper over a connection, where no transaction is open.
fn over_settled<S: Alter + Drop>(conn: Connection<S>) -> Result<SqliteKeeper<S>, OverRefusal>
    requires unlimited { conn.step_limit ≡ None }
{
    if !conn.is_autocommit() {
        return Err(OverRefusal::Refused);
    }
    over(conn)
}

#[test]
fn a_foreign_table_stays(rt: HostRuntime) -> Result<(), Fail> {
    let alloc = rt.alloc();
    let mut keeper = over_settled(with_other_table(alloc)?)?;
    save(alloc, &mut keeper, &ROWS)?;
    assert!(rt; has(alloc, &mut keeper, "a.test x=3;a.test y=4;b.test x=1;")?);
    let mut conn = keeper.into_connection();
    assert_eq!(rt; number(&mut conn, "SELECT number FROM other")?, 7);
    Ok(())
}

/// A connection whose table of cookies isn't that of the creation text, and has rows that are none.
fn with_odd_rows(alloc: Global) -> Result<Connection<MemStore>, Error>
    ensures { IfOk result (λ conn. conn.step_limit ≡ None) }
{
    let mut conn = Connection::open_in_memory(alloc)?;
    run(
        &mut conn,
        "CREATE TABLE cookies(host TEXT, name TEXT, path TEXT, value TEXT, creation INTEGER, expiry INTEGER, access INTEGER, secure INTEGER, http_only INTEGER, same_site INTEGER, priority INTEGER) STRICT",
    )?;
    run_with_text(
        &mut conn,
        "INSERT INTO cookies VALUES(NULL, 'n', '/', 'v', 1, 2, 3, 0, 0, 0, 0), ('a', 'n', '/', 'v', 1, 2, 3, 0, 0, 0, 0), ('a', 'n', '/', 'w', 1, 2, 3, 0, 0, 0, 0), ('a', 'o', '/', 'v', 1, NULL, 3, 0, 0, 0, 0), ('a', 'p', '/', ?1, 1, 2, 3, 0, 0, 0, 0), ('a', 'q', '/', 'z', 1, 2, 3, 0, 0, 0, 0), (?1, 'n', '/', 'v', 1, 2, 3, 0, 0, 0, 0)",
        b"\xff",
    )?;
    Ok(conn)
}

#[test]
fn what_is_no_row_or_does_not_rise_is_passed_over(rt: HostRuntime) -> Result<(), Fail> {
    let alloc = rt.alloc();
    let mut keeper = over_settled(with_odd_rows(alloc)?)?;
    assert!(rt; has(alloc, &mut keeper, "a n=v;a q=z;")?);
    Ok(())
}
