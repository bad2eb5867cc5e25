//! The changes of stored rows that events make.

use super::rows::{Kind, Row, SET, delete, elsewhere, get, loaded, set, storing, until, whole};
use super::runs::{gives, gives_of_stored};
use std::test::Fail;

#[test]
fn a_row_comes_where_a_cookie_with_an_expiry_is_set(rt: HostRuntime) -> Result<(), Fail> {
    let rows = [
        storing(until("a", 0, 1000)),
        storing(until("b", 1, 1000)),
        storing(until("a", 5, 2000)),
        storing(until("a", 0, 2000)),
        storing(until("a", 5, 2000)),
    ];
    let due = "rows [put a 0 1000 0];rows [put b 1 1000 1];rows [put a 0 2000 5];\
        rows [put a 0 2000 0];rows [put a 0 2000 5];";
    assert!(rt; gives(rt.alloc(), &rows, due)?);
    Ok(())
}

// A replacement by an equal row is no change, nor is a cookie of another id.
#[test]
fn an_equal_row_is_no_change(rt: HostRuntime) -> Result<(), Fail> {
    let rows = [
        until("a", 0, 1000),
        until("c", 0, 1000),
        storing(until("a", 0, 1000)),
        storing(get(7)),
    ];
    assert!(rt; gives(rt.alloc(), &rows, "stored;stored;rows;rows;")?);
    Ok(())
}

#[test]
fn a_session_cookie_has_no_row(rt: HostRuntime) -> Result<(), Fail> {
    let rows = [
        storing(set("a", "/", 0)),
        storing(set("a", "/", 5)),
        storing(get(70_000)),
        storing(until("a", 70_001, 90_000)),
        storing(set("a", "/", 70_002)),
        storing(delete("a", 70_003)),
    ];
    let due = "rows;rows;rows;rows [put a 0 90000 70001];rows [drop a];rows;";
    assert!(rt; gives(rt.alloc(), &rows, due)?);
    Ok(())
}

#[test]
fn a_refreshed_access_changes_the_row(rt: HostRuntime) -> Result<(), Fail> {
    let rows = [
        until("a", 0, 90_000),
        until("b", 10, 90_000),
        storing(get(59_999)),
        storing(get(60_000)),
        storing(get(60_010)),
    ];
    let due = "stored;stored;rows;rows [put a 0 90000 60000];rows [put b 10 90000 60010];";
    assert!(rt; gives(rt.alloc(), &rows, due)?);
    Ok(())
}

// An expired cookie leaves its row with the first call on its key.
#[test]
fn a_row_goes_where_its_cookie_leaves(rt: HostRuntime) -> Result<(), Fail> {
    let rows = [
        until("a", 0, 1000),
        until("b", 0, 100),
        until("c", 0, 100),
        elsewhere(until("b", 0, 100)),
        storing(delete("a", 5)),
        storing(get(100)),
        storing(until("d", 100, 1000)),
        storing(until("d", 200, 0)),
    ];
    let due = "stored;stored;stored;stored;rows [drop a];rows [drop b] [drop c];\
        rows [put d 100 1000 100];rows [drop d];";
    assert!(rt; gives(rt.alloc(), &rows, due)?);
    Ok(())
}

#[test]
fn clear_drops_each_row(rt: HostRuntime) -> Result<(), Fail> {
    let all = |kind, now| Row { kind, now, ..SET };
    let rows = [
        whole(0),
        elsewhere(until("b", 0, 1000)),
        until("a", 0, 100),
        set("c", "/", 0),
        until("d", 0, 1000),
        storing(all(Kind::All, 100)),
        storing(all(Kind::Clear, 101)),
        storing(all(Kind::Clear, 102)),
    ];
    let due = "jar;stored;stored;stored;stored;rows [drop a];rows [drop d] [drop b];rows;";
    assert!(rt; gives(rt.alloc(), &rows, due)?);
    Ok(())
}

// A load takes its cookies from the store, and changes no row; a call on them does.
#[test]
fn a_load_changes_no_row(rt: HostRuntime) -> Result<(), Fail> {
    let begun = Row {
        kind: Kind::Begun,
        ..SET
    };
    let rows = [
        storing(begun),
        storing(loaded(2, 5)),
        storing(get(6)),
        storing(delete("a1", 7)),
    ];
    assert!(rt; gives_of_stored(rt.alloc(), &rows, "rows;rows;rows;rows [drop a1];")?);
    Ok(())
}
