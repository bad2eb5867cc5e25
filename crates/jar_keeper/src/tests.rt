//! A keeper in memory at worked rows, with ample memory, and callers of any keeper.

mod uses;

use crate::{Keeper, KeeperRefusal, MemKeeper};
use jar_types::{CookieId, NoMemory, Row, RowChange, RowChanges, Rows, Text};
use std::alloc::{AllocError, Global};
use std::test::Fail;
use uses::{load_all, save};

/// A row of a host under a name and a value, each of one letter or more.
fn row(alloc: Global, host: &str, name: &str, value: &str) -> Result<Row, NoMemory> {
    Ok(Row {
        host: Text::of(alloc, host)?,
        name: Text::of(alloc, name)?,
        path: Text::of(alloc, "/")?,
        value: Text::of(alloc, value)?,
        creation: 0,
        expiry: 1_000_000,
        access: 0,
        secure: 0,
        http_only: 0,
        same_site: 0,
        priority: 0,
    })
}

/// The change that puts a row of a host under a name and a value; without a value it drops it.
fn change(alloc: Global, host: &str, name: &str, value: &str) -> Result<RowChange, NoMemory> {
    if !value.is_empty() {
        return Ok(RowChange::Put(row(alloc, host, name, value)?));
    }
    Ok(RowChange::Drop(CookieId {
        host: Text::of(alloc, host)?,
        name: Text::of(alloc, name)?,
        path: Text::of(alloc, "/")?,
    }))
}

/// The changes of these hosts, names and values.
fn changes(alloc: Global, parts: &[[&str; 3]]) -> Result<RowChanges, NoMemory> {
    let mut list = RowChanges::new(alloc);
    for part in parts {
        list.push(change(alloc, part[0], part[1], part[2])?)?;
    }
    Ok(list)
}

/// A list of one number.
fn only(alloc: Global, number: u64) -> Result<Vec<u64>, NoMemory> {
    let mut numbers = Vec::new(alloc);
    numbers.push(number)?;
    Ok(numbers)
}

/// An empty keeper, whose calls fail at this number; with 0 none does.
#[tactic(auto, using(crate::proofs::RowLemmas::none_rise))]
fn empty(alloc: Global, failing: u64) -> Result<MemKeeper, NoMemory> {
    Ok(MemKeeper::of(alloc, Rows::new(alloc), only(alloc, failing)?))
}

/// A keeper of the rows that were committed to another, whose calls fail at this number.
fn again(alloc: Global, other: &MemKeeper, failing: u64) -> Result<MemKeeper, NoMemory> {
    Ok(MemKeeper::of(alloc, other.rows().copy(alloc)?, only(alloc, failing)?))
}

/// Whether a commit of these changes is Ok.
fn commits<K: Keeper>(
    alloc: Global,
    keeper: &mut K,
    parts: &[[&str; 3]],
) -> Result<bool, NoMemory> {
    let list = changes(alloc, parts)?;
    Ok(save(alloc, keeper, &list).is_ok())
}

/// A keeper of four rows, whose calls fail at this number.
fn keeper(alloc: Global, failing: u64) -> Result<MemKeeper, NoMemory> {
    let mut first = empty(alloc, 0)?;
    commits(alloc, &mut first, &ROWS)?;
    again(alloc, &first, failing)
}

/// Rows as text: host, name and value of each.
fn add_text(text: &mut String, rows: &[Row]) -> Result<(), AllocError> {
    for row in rows {
        text.push_str(row.host.as_str())?;
        text.push_str(" ")?;
        text.push_str(row.name.as_str())?;
        text.push_str("=")?;
        text.push_str(row.value.as_str())?;
        text.push_str(";")?;
    }
    Ok(())
}

/// Whether these rows are those of a text.
fn are(alloc: Global, rows: &[Row], expected: &str) -> Result<bool, AllocError> {
    let mut text = String::new(alloc);
    add_text(&mut text, rows)?;
    Ok(text.as_str() == expected)
}

/// Whether a keeper has these rows, and a crash may leave these besides.
fn keeps(alloc: Global, keeper: &MemKeeper, rows: &str, left: &str) -> Result<bool, AllocError> {
    let mut text = String::new(alloc);
    for list in keeper.also_leaves() {
        add_text(&mut text, list.as_slice())?;
    }
    Ok(text.as_str() == left && are(alloc, keeper.rows().as_slice(), rows)?)
}

/// Whether the hosts of a keeper are those of a text.
fn has_hosts<K: Keeper>(alloc: Global, keeper: &mut K, expected: &str) -> Result<bool, Fail> {
    let hosts = keeper.hosts(alloc)?;
    let mut text = String::new(alloc);
    for host in hosts.as_slice() {
        text.push_str(host.as_str())?;
        text.push_str(";")?;
    }
    Ok(text.as_str() == expected)
}

/// Whether a load of a host gives the rows of a text.
fn loads<K: Keeper>(
    alloc: Global,
    keeper: &mut K,
    host: &str,
    expected: &str,
) -> Result<bool, Fail> {
    let rows = keeper.load(alloc, host)?;
    Ok(are(alloc, rows.as_slice(), expected)?)
}

const ROWS: [[&str; 3]; 4] = [
    ["b.test", "z", "3"],
    [".a.test", "x", "1"],
    ["www.a.test", "y", "2"],
    ["b.test", "a", "4"],
];

#[test]
fn hosts_ascend_and_stand_once(rt: HostRuntime) -> Result<(), Fail> {
    let mut keeper = keeper(rt.alloc(), 0)?;
    assert!(rt; has_hosts(rt.alloc(), &mut keeper, ".a.test;b.test;www.a.test;")?);
    Ok(())
}

#[test]
fn a_load_gives_the_rows_of_its_host_alone(rt: HostRuntime) -> Result<(), Fail> {
    let mut keeper = keeper(rt.alloc(), 0)?;
    for [host, rows] in [
        ["b.test", "b.test a=4;b.test z=3;"],
        [".a.test", ".a.test x=1;"],
        ["a.test", ""],
    ] {
        assert!(rt; loads(rt.alloc(), &mut keeper, host, rows)?);
    }
    Ok(())
}

#[test]
fn all_loads_together_are_the_rows(rt: HostRuntime) -> Result<(), Fail> {
    let mut keeper = keeper(rt.alloc(), 0)?;
    let all = load_all(rt.alloc(), &mut keeper)?;
    let rows = ".a.test x=1;b.test a=4;b.test z=3;www.a.test y=2;";
    assert!(rt; are(rt.alloc(), all.as_slice(), rows)?);
    Ok(())
}

#[test]
fn changes_are_made_one_after_another(rt: HostRuntime) -> Result<(), Fail> {
    let mut keeper = keeper(rt.alloc(), 0)?;
    // One is replaced twice, one is new and goes again, two go, of which one isn't there.
    let parts = [
        ["b.test", "a", "5"],
        ["b.test", "n", "6"],
        ["b.test", "a", "7"],
        ["b.test", "n", ""],
        [".a.test", "x", ""],
        ["c.test", "x", ""],
    ];
    assert!(rt; commits(rt.alloc(), &mut keeper, &parts)?);
    assert!(rt;
        keeps(
            rt.alloc(),
            &keeper,
            "b.test a=7;b.test z=3;www.a.test y=2;",
            ""
        )?
    );
    Ok(())
}

/// Which of a `hosts`, a `load` and a `commit` were Ok, one after another.
fn answers(alloc: Global, failing: u64) -> Result<[bool; 3], NoMemory> {
    let mut keeper = keeper(alloc, failing)?;
    let hosts = keeper.hosts(alloc).is_ok();
    let load = keeper.load(alloc, "b.test").is_ok();
    let commit = commits(alloc, &mut keeper, &[["b.test", "z", ""]])?;
    Ok([hosts, load, commit])
}

#[test]
fn each_call_fails_at_its_number(rt: HostRuntime) -> Result<(), Fail> {
    for number in 0..=4 {
        let expected = [number != 1, number != 2, number != 3];
        assert!(rt; answers(rt.alloc(), number)? == expected);
    }
    Ok(())
}

#[test]
fn a_crash_may_leave_a_failed_commit_until_the_next(rt: HostRuntime) -> Result<(), Fail> {
    let mut keeper = empty(rt.alloc(), 2)?;
    commits(rt.alloc(), &mut keeper, &[["a.test", "x", "1"]])?;
    assert!(rt; !commits(rt.alloc(), &mut keeper, &[["a.test", "x", "2"]])?);
    assert!(rt; keeps(rt.alloc(), &keeper, "a.test x=1;", "a.test x=2;")?);
    commits(rt.alloc(), &mut keeper, &[["b.test", "y", "3"]])?;
    assert!(rt; keeps(rt.alloc(), &keeper, "a.test x=1;b.test y=3;", "")?);
    Ok(())
}

#[test]
fn refusals_say_their_cause(rt: HostRuntime) -> Result<(), Fail> {
    let alloc = rt.alloc();
    let failed = format!(in alloc; "{}", KeeperRefusal::Failed)?;
    let starved = format!(in alloc; "{}", KeeperRefusal::from(NoMemory))?;
    assert_eq!(rt; failed.as_str(), "the store failed");
    assert_eq!(rt; starved.as_str(), "out of memory");
    Ok(())
}
