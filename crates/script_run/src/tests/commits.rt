//! Commits of changed rows, and what the keeper holds then.

use super::rows::{keeper_of, row};
use super::{no_rows, run_with};
use jar_keeper::MemKeeper;
use jar_types::{Entry, Own};
use std::alloc::Global;
use std::fmt::Write;
use std::test::Fail;

/// Sets of a cookie that lasts and is set again, of a session cookie, and of one that is taken away.
const SETS: &str =
    "{\"actors\":[{\"kind\":\"fetch\",\"steps\":[{\"line\":\"a=1; Max-Age=10\",\"now\":0,\"op\":\"set\",\"url\":\"http://h.test/\"},{\"line\":\"a=2; Max-Age=20\",\"now\":1,\"op\":\"set\",\"url\":\"http://h.test/\"},{\"line\":\"s=1\",\"now\":0,\"op\":\"set\",\"url\":\"http://h.test/\"},{\"line\":\"b=1; Max-Age=10\",\"now\":0,\"op\":\"set\",\"url\":\"http://h.test/\"},{\"line\":\"b=2; Max-Age=-1\",\"now\":1,\"op\":\"set\",\"url\":\"http://h.test/\"}]}]}";

#[test]
fn what_lasts_is_held_after_a_run(rt: HostRuntime) -> Result<(), Fail> {
    let alloc = rt.alloc();
    let ran = run_with(alloc, SETS, no_rows(alloc))?;
    assert_eq!(rt; ran.status, 0);
    let rows = ran.keeper.rows().as_slice();
    assert_eq!(rt; rows.len(), 1);
    assert!(rt; rows[0].name.as_str() == "a" && rows[0].value.as_str() == "2");
    assert_eq!(rt; rows[0].expiry, 20_001);
    // One entry for each step, one in which the jar became whole, and one batch.
    assert_eq!(rt; ran.journal.len(), 8);
    assert!(rt; matches!(ran.journal.get(6), Some(Entry::Jar(Own::Taken))));
    assert!(rt; matches!(ran.journal.get(7), Some(Entry::Jar(Own::Acked(7)))));
    Ok(())
}

#[test]
fn a_failed_commit_ends_with_6_and_keeps_the_rows(rt: HostRuntime) -> Result<(), Fail> {
    let alloc = rt.alloc();
    let keeper = MemKeeper::of(
        alloc,
        no_rows(alloc).rows().copy(alloc)?,
        Vec::from_slice(alloc, &[2])?,
    );
    let ran = run_with(alloc, SETS, keeper)?;
    assert_eq!(rt; ran.status, 6);
    assert_eq!(rt; ran.keeper.rows().len(), 0);
    assert!(rt; matches!(ran.journal.get(7), Some(Entry::Jar(Own::CommitLost(7)))));
    // A crash may leave the changed rows.
    assert_eq!(rt; ran.keeper.also_leaves().len(), 1);
    Ok(())
}

/// A get of the cookies of `h.test`, after more than a minute.
const GET: &str =
    "{\"actors\":[{\"kind\":\"fetch\",\"steps\":[{\"now\":60000,\"op\":\"get\",\"url\":\"http://h.test/\"}]}]}";

#[test]
fn a_refreshed_access_is_stored(rt: HostRuntime) -> Result<(), Fail> {
    let alloc = rt.alloc();
    let mut rows = Vec::new(alloc);
    rows.push(row(alloc, "h.test", "a", "1")?)?;
    let ran = run_with(alloc, GET, keeper_of(alloc, rows, &[])?)?;
    assert_eq!(rt; ran.status, 0);
    let rows = ran.keeper.rows().as_slice();
    assert_eq!(rt; rows.len(), 1);
    assert_eq!(rt; rows[0].access, 60_000);
    Ok(())
}

/// A script of so many sets of cookies that last, each of its own host.
fn many_sets(alloc: Global, count: usize) -> Result<String, Fail> {
    let mut script = String::from_str(alloc, "{\"actors\":[{\"kind\":\"fetch\",\"steps\":[")?;
    for n in 0..count {
        let comma = if n == 0 { "" } else { "," };
        write!(
            script,
            "{comma}{{\"line\":\"a=1; Max-Age=10\",\"now\":0,\"op\":\"set\",\"url\":\"http://h{n}.test/\"}}"
        )?;
    }
    script.push_str("]}]}")?;
    Ok(script)
}

#[test]
fn five_hundred_and_twelve_changed_rows_are_a_batch(rt: HostRuntime) -> Result<(), Fail> {
    let alloc = rt.alloc();
    let script = many_sets(alloc, 513)?;
    let ran = run_with(alloc, script.as_str(), no_rows(alloc))?;
    assert_eq!(rt; ran.keeper.rows().len(), 513);
    // The first batch follows 512 sets and the entry in which the jar became whole; the last one the set left.
    for place in [513, 516] {
        assert!(rt; matches!(ran.journal.get(place), Some(Entry::Jar(Own::Taken))));
    }
    assert_eq!(rt; ran.journal.len(), 518);
    Ok(())
}
