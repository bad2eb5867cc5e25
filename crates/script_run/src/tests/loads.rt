//! Loads in their order, and loads that are lost, over stored rows, worked by hand from docs/DEFINITIONS.md.

use super::rows::{keeper_of, row, two_keys};
use super::run_with;
use jar_types::Row;
use std::alloc::Global;
use std::test::Fail;

/// A get of `b.test`, and then all cookies.
const ORDER: &str =
    "{\"actors\":[{\"kind\":\"fetch\",\"steps\":[{\"now\":0,\"op\":\"get\",\"url\":\"https://b.test/\"},{\"now\":0,\"op\":\"all\"}]}],\"suffixes\":\"test\"}";

/// Its report: what is waited for is loaded first, and all cookies wait for the whole jar.
const ORDER_REPORT: &str =
    "{\"actors\":[[{\"at\":4},{\"at\":9}]],\"hosts\":[\".a.test\",\"b.test\",\"www.a.test\"],\"journal\":[{\"key\":\"b.test\",\"own\":\"want\"},{\"key\":\"b.test\",\"own\":\"begun\"},{\"cookies\":[{\"access\":0,\"creation\":0,\"expiry\":1000000,\"host\":\"b.test\",\"http_only\":false,\"key\":\"b.test\",\"name\":\"z\",\"path\":\"/\",\"priority\":\"low\",\"same_site\":\"unspecified\",\"secure\":false,\"value\":\"3\"}],\"key\":\"b.test\",\"own\":\"loaded\"},{\"by\":0,\"now\":0,\"op\":{\"kind\":\"get\",\"request\":{\"context\":\"strict\",\"host\":\"b.test\",\"key\":\"b.test\",\"path\":\"/\",\"script\":false,\"secure\":true}},\"reply\":{\"cookies\":[{\"access\":0,\"creation\":0,\"expiry\":1000000,\"host\":\"b.test\",\"http_only\":false,\"key\":\"b.test\",\"name\":\"z\",\"path\":\"/\",\"priority\":\"low\",\"same_site\":\"unspecified\",\"secure\":false,\"value\":\"3\"}]}},{\"key\":\"a.test\",\"own\":\"begun\"},{\"cookies\":[{\"access\":0,\"creation\":0,\"expiry\":1000000,\"host\":\".a.test\",\"http_only\":false,\"key\":\"a.test\",\"name\":\"x\",\"path\":\"/\",\"priority\":\"low\",\"same_site\":\"unspecified\",\"secure\":false,\"value\":\"1\"},{\"access\":0,\"creation\":0,\"expiry\":1000000,\"host\":\"www.a.test\",\"http_only\":false,\"key\":\"a.test\",\"name\":\"y\",\"path\":\"/\",\"priority\":\"low\",\"same_site\":\"unspecified\",\"secure\":false,\"value\":\"2\"}],\"key\":\"a.test\",\"own\":\"loaded\"},{\"own\":\"want_all\"},{\"now\":0,\"own\":\"whole\"},{\"by\":0,\"now\":0,\"op\":{\"kind\":\"all\"},\"reply\":{\"cookies\":[{\"access\":0,\"creation\":0,\"expiry\":1000000,\"host\":\".a.test\",\"http_only\":false,\"key\":\"a.test\",\"name\":\"x\",\"path\":\"/\",\"priority\":\"low\",\"same_site\":\"unspecified\",\"secure\":false,\"value\":\"1\"},{\"access\":0,\"creation\":0,\"expiry\":1000000,\"host\":\"b.test\",\"http_only\":false,\"key\":\"b.test\",\"name\":\"z\",\"path\":\"/\",\"priority\":\"low\",\"same_site\":\"unspecified\",\"secure\":false,\"value\":\"3\"},{\"access\":0,\"creation\":0,\"expiry\":1000000,\"host\":\"www.a.test\",\"http_only\":false,\"key\":\"a.test\",\"name\":\"y\",\"path\":\"/\",\"priority\":\"low\",\"same_site\":\"unspecified\",\"secure\":false,\"value\":\"2\"}]}}]}\n";

#[test]
fn what_is_waited_for_is_loaded_first(rt: HostRuntime) -> Result<(), Fail> {
    let alloc = rt.alloc();
    let ran = run_with(alloc, ORDER, two_keys(alloc, &[])?)?;
    assert_eq!(rt; ran.status, 0);
    assert!(rt; ran.written.as_slice() == ORDER_REPORT.as_bytes());
    assert_eq!(rt; ran.keeper.rows().len(), 3);
    Ok(())
}

/// The report where the load of `b.test` is lost: the get is told so, and the key is loaded later.
const LOST_FIRST: &str =
    "{\"actors\":[[{\"at\":4},{\"at\":11}]],\"hosts\":[\".a.test\",\"b.test\",\"www.a.test\"],\"journal\":[{\"key\":\"b.test\",\"own\":\"want\"},{\"key\":\"b.test\",\"own\":\"begun\"},{\"key\":\"b.test\",\"own\":\"lost\"},{\"by\":0,\"now\":0,\"op\":{\"kind\":\"get\",\"request\":{\"context\":\"strict\",\"host\":\"b.test\",\"key\":\"b.test\",\"path\":\"/\",\"script\":false,\"secure\":true}},\"reply\":\"store_fault\"},{\"key\":\"a.test\",\"own\":\"begun\"},{\"cookies\":[{\"access\":0,\"creation\":0,\"expiry\":1000000,\"host\":\".a.test\",\"http_only\":false,\"key\":\"a.test\",\"name\":\"x\",\"path\":\"/\",\"priority\":\"low\",\"same_site\":\"unspecified\",\"secure\":false,\"value\":\"1\"},{\"access\":0,\"creation\":0,\"expiry\":1000000,\"host\":\"www.a.test\",\"http_only\":false,\"key\":\"a.test\",\"name\":\"y\",\"path\":\"/\",\"priority\":\"low\",\"same_site\":\"unspecified\",\"secure\":false,\"value\":\"2\"}],\"key\":\"a.test\",\"own\":\"loaded\"},{\"own\":\"want_all\"},{\"key\":\"b.test\",\"own\":\"begun\"},{\"cookies\":[{\"access\":0,\"creation\":0,\"expiry\":1000000,\"host\":\"b.test\",\"http_only\":false,\"key\":\"b.test\",\"name\":\"z\",\"path\":\"/\",\"priority\":\"low\",\"same_site\":\"unspecified\",\"secure\":false,\"value\":\"3\"}],\"key\":\"b.test\",\"own\":\"loaded\"},{\"now\":0,\"own\":\"whole\"},{\"by\":0,\"now\":0,\"op\":{\"kind\":\"all\"},\"reply\":{\"cookies\":[{\"access\":0,\"creation\":0,\"expiry\":1000000,\"host\":\".a.test\",\"http_only\":false,\"key\":\"a.test\",\"name\":\"x\",\"path\":\"/\",\"priority\":\"low\",\"same_site\":\"unspecified\",\"secure\":false,\"value\":\"1\"},{\"access\":0,\"creation\":0,\"expiry\":1000000,\"host\":\"b.test\",\"http_only\":false,\"key\":\"b.test\",\"name\":\"z\",\"path\":\"/\",\"priority\":\"low\",\"same_site\":\"unspecified\",\"secure\":false,\"value\":\"3\"},{\"access\":0,\"creation\":0,\"expiry\":1000000,\"host\":\"www.a.test\",\"http_only\":false,\"key\":\"a.test\",\"name\":\"y\",\"path\":\"/\",\"priority\":\"low\",\"same_site\":\"unspecified\",\"secure\":false,\"value\":\"2\"}]}}]}\n";

/// The report where the load of one of the hosts of `a.test` is lost, of either: both are asked for
/// again.
const LOST_SECOND: &str =
    "{\"actors\":[[{\"at\":4},{\"at\":11}]],\"hosts\":[\".a.test\",\"b.test\",\"www.a.test\"],\"journal\":[{\"key\":\"b.test\",\"own\":\"want\"},{\"key\":\"b.test\",\"own\":\"begun\"},{\"cookies\":[{\"access\":0,\"creation\":0,\"expiry\":1000000,\"host\":\"b.test\",\"http_only\":false,\"key\":\"b.test\",\"name\":\"z\",\"path\":\"/\",\"priority\":\"low\",\"same_site\":\"unspecified\",\"secure\":false,\"value\":\"3\"}],\"key\":\"b.test\",\"own\":\"loaded\"},{\"by\":0,\"now\":0,\"op\":{\"kind\":\"get\",\"request\":{\"context\":\"strict\",\"host\":\"b.test\",\"key\":\"b.test\",\"path\":\"/\",\"script\":false,\"secure\":true}},\"reply\":{\"cookies\":[{\"access\":0,\"creation\":0,\"expiry\":1000000,\"host\":\"b.test\",\"http_only\":false,\"key\":\"b.test\",\"name\":\"z\",\"path\":\"/\",\"priority\":\"low\",\"same_site\":\"unspecified\",\"secure\":false,\"value\":\"3\"}]}},{\"key\":\"a.test\",\"own\":\"begun\"},{\"key\":\"a.test\",\"own\":\"lost\"},{\"own\":\"want_all\"},{\"key\":\"a.test\",\"own\":\"begun\"},{\"cookies\":[{\"access\":0,\"creation\":0,\"expiry\":1000000,\"host\":\".a.test\",\"http_only\":false,\"key\":\"a.test\",\"name\":\"x\",\"path\":\"/\",\"priority\":\"low\",\"same_site\":\"unspecified\",\"secure\":false,\"value\":\"1\"},{\"access\":0,\"creation\":0,\"expiry\":1000000,\"host\":\"www.a.test\",\"http_only\":false,\"key\":\"a.test\",\"name\":\"y\",\"path\":\"/\",\"priority\":\"low\",\"same_site\":\"unspecified\",\"secure\":false,\"value\":\"2\"}],\"key\":\"a.test\",\"own\":\"loaded\"},{\"now\":0,\"own\":\"whole\"},{\"by\":0,\"now\":0,\"op\":{\"kind\":\"all\"},\"reply\":{\"cookies\":[{\"access\":0,\"creation\":0,\"expiry\":1000000,\"host\":\".a.test\",\"http_only\":false,\"key\":\"a.test\",\"name\":\"x\",\"path\":\"/\",\"priority\":\"low\",\"same_site\":\"unspecified\",\"secure\":false,\"value\":\"1\"},{\"access\":0,\"creation\":0,\"expiry\":1000000,\"host\":\"b.test\",\"http_only\":false,\"key\":\"b.test\",\"name\":\"z\",\"path\":\"/\",\"priority\":\"low\",\"same_site\":\"unspecified\",\"secure\":false,\"value\":\"3\"},{\"access\":0,\"creation\":0,\"expiry\":1000000,\"host\":\"www.a.test\",\"http_only\":false,\"key\":\"a.test\",\"name\":\"y\",\"path\":\"/\",\"priority\":\"low\",\"same_site\":\"unspecified\",\"secure\":false,\"value\":\"2\"}]}}]}\n";

/// The line of a keeper that fails at its hosts.
const NO_HOSTS: &str = "{\"path\":\"\",\"refused\":\"StoreFault\"}\n";

#[test]
fn each_keeper_call_that_fails_has_its_entry(rt: HostRuntime) -> Result<(), Fail> {
    let alloc = rt.alloc();
    for (call, due) in [
        (1, NO_HOSTS),
        (2, LOST_FIRST),
        (3, LOST_SECOND),
        (4, LOST_SECOND),
    ] {
        let ran = run_with(alloc, ORDER, two_keys(alloc, &[call])?)?;
        assert_eq!(rt; ran.status, 6, "call {call}");
        assert!(rt; ran.written.as_slice() == due.as_bytes(), "call {call}");
        assert_eq!(rt; ran.keeper.rows().len(), 3, "call {call}");
    }
    Ok(())
}

#[test]
fn nothing_is_run_where_the_hosts_fail(rt: HostRuntime) -> Result<(), Fail> {
    let alloc = rt.alloc();
    let ran = run_with(alloc, ORDER, two_keys(alloc, &[1])?)?;
    assert_eq!(rt; ran.journal.len(), 0);
    Ok(())
}

/// Two gets of `b.test`.
const TWICE: &str =
    "{\"actors\":[{\"kind\":\"fetch\",\"steps\":[{\"now\":0,\"op\":\"get\",\"url\":\"https://b.test/\"},{\"now\":0,\"op\":\"get\",\"url\":\"https://b.test/\"}]}],\"suffixes\":\"test\"}";

/// Its report where the first load is lost: one get is told so, and the other waits for the next load.
const TWICE_REPORT: &str =
    "{\"actors\":[[{\"at\":4},{\"at\":10}]],\"hosts\":[\".a.test\",\"b.test\",\"www.a.test\"],\"journal\":[{\"key\":\"b.test\",\"own\":\"want\"},{\"key\":\"b.test\",\"own\":\"begun\"},{\"key\":\"b.test\",\"own\":\"lost\"},{\"by\":0,\"now\":0,\"op\":{\"kind\":\"get\",\"request\":{\"context\":\"strict\",\"host\":\"b.test\",\"key\":\"b.test\",\"path\":\"/\",\"script\":false,\"secure\":true}},\"reply\":\"store_fault\"},{\"key\":\"a.test\",\"own\":\"begun\"},{\"cookies\":[{\"access\":0,\"creation\":0,\"expiry\":1000000,\"host\":\".a.test\",\"http_only\":false,\"key\":\"a.test\",\"name\":\"x\",\"path\":\"/\",\"priority\":\"low\",\"same_site\":\"unspecified\",\"secure\":false,\"value\":\"1\"},{\"access\":0,\"creation\":0,\"expiry\":1000000,\"host\":\"www.a.test\",\"http_only\":false,\"key\":\"a.test\",\"name\":\"y\",\"path\":\"/\",\"priority\":\"low\",\"same_site\":\"unspecified\",\"secure\":false,\"value\":\"2\"}],\"key\":\"a.test\",\"own\":\"loaded\"},{\"key\":\"b.test\",\"own\":\"want\"},{\"key\":\"b.test\",\"own\":\"begun\"},{\"cookies\":[{\"access\":0,\"creation\":0,\"expiry\":1000000,\"host\":\"b.test\",\"http_only\":false,\"key\":\"b.test\",\"name\":\"z\",\"path\":\"/\",\"priority\":\"low\",\"same_site\":\"unspecified\",\"secure\":false,\"value\":\"3\"}],\"key\":\"b.test\",\"own\":\"loaded\"},{\"by\":0,\"now\":0,\"op\":{\"kind\":\"get\",\"request\":{\"context\":\"strict\",\"host\":\"b.test\",\"key\":\"b.test\",\"path\":\"/\",\"script\":false,\"secure\":true}},\"reply\":{\"cookies\":[{\"access\":0,\"creation\":0,\"expiry\":1000000,\"host\":\"b.test\",\"http_only\":false,\"key\":\"b.test\",\"name\":\"z\",\"path\":\"/\",\"priority\":\"low\",\"same_site\":\"unspecified\",\"secure\":false,\"value\":\"3\"}]}},{\"now\":0,\"own\":\"whole\"}]}\n";

#[test]
fn a_lost_load_is_told_once_and_made_up_for(rt: HostRuntime) -> Result<(), Fail> {
    let alloc = rt.alloc();
    let ran = run_with(alloc, TWICE, two_keys(alloc, &[2])?)?;
    assert_eq!(rt; ran.status, 6);
    assert!(rt; ran.written.as_slice() == TWICE_REPORT.as_bytes());
    Ok(())
}

/// Rows none of which stands for a cookie, one for each cause.
fn unsound(alloc: Global) -> Result<Vec<Row>, Fail> {
    let mut rows = Vec::new(alloc);
    rows.push(row(alloc, "H.test", "x", "1")?)?;
    let mut early = row(alloc, "h.test", "access", "1")?;
    early.access = -1;
    rows.push(early)?;
    let mut late = row(alloc, "h.test", "creation", "1")?;
    late.creation = 253_402_300_800_000;
    rows.push(late)?;
    let mut expiry = row(alloc, "h.test", "expiry", "1")?;
    expiry.expiry = -1;
    rows.push(expiry)?;
    let mut secure = row(alloc, "h.test", "secure", "1")?;
    secure.secure = 2;
    rows.push(secure)?;
    let mut http_only = row(alloc, "h.test", "http_only", "1")?;
    http_only.http_only = -1;
    rows.push(http_only)?;
    let mut same_site = row(alloc, "h.test", "same_site", "1")?;
    same_site.same_site = 4;
    rows.push(same_site)?;
    let mut priority = row(alloc, "h.test", "priority", "1")?;
    priority.priority = 3;
    rows.push(priority)?;
    Ok(rows)
}

/// All cookies.
const ALL: &str = "{\"actors\":[{\"kind\":\"fetch\",\"steps\":[{\"now\":0,\"op\":\"all\"}]}]}";

/// Its report: no row was listed.
const ALL_REPORT: &str =
    "{\"actors\":[[{\"at\":7}]],\"hosts\":[\"H.test\",\"h.test\"],\"journal\":[{\"own\":\"want_all\"},{\"key\":\"H.test\",\"own\":\"begun\"},{\"cookies\":[],\"key\":\"H.test\",\"own\":\"loaded\"},{\"key\":\"h.test\",\"own\":\"begun\"},{\"cookies\":[],\"key\":\"h.test\",\"own\":\"loaded\"},{\"now\":0,\"own\":\"whole\"},{\"by\":0,\"now\":0,\"op\":{\"kind\":\"all\"},\"reply\":{\"cookies\":[]}}]}\n";

#[test]
fn unsound_rows_are_no_cookies_and_stay(rt: HostRuntime) -> Result<(), Fail> {
    let alloc = rt.alloc();
    let ran = run_with(alloc, ALL, keeper_of(alloc, unsound(alloc)?, &[])?)?;
    assert_eq!(rt; ran.status, 0);
    assert!(rt; ran.written.as_slice() == ALL_REPORT.as_bytes());
    assert_eq!(rt; ran.keeper.rows().len(), 8);
    Ok(())
}

/// No actor.
const EMPTY: &str = "{\"actors\":[]}";

/// Its report over one row: the first round is made, in which a key is loaded.
const EMPTY_REPORT: &str =
    "{\"actors\":[],\"hosts\":[\"H.test\"],\"journal\":[{\"key\":\"H.test\",\"own\":\"begun\"},{\"cookies\":[],\"key\":\"H.test\",\"own\":\"loaded\"}]}\n";

#[test]
fn a_script_of_no_actor_loads_one_key(rt: HostRuntime) -> Result<(), Fail> {
    let alloc = rt.alloc();
    let mut rows = Vec::new(alloc);
    rows.push(row(alloc, "H.test", "x", "1")?)?;
    let ran = run_with(alloc, EMPTY, keeper_of(alloc, rows, &[])?)?;
    assert_eq!(rt; ran.status, 0);
    assert!(rt; ran.written.as_slice() == EMPTY_REPORT.as_bytes());
    assert_eq!(rt; ran.keeper.rows().len(), 1);
    Ok(())
}
