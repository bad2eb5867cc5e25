//! Rows and their changes, copied.

use super::{id, text};
use crate::{Row, RowChange, Rows};
use std::alloc::Global;
use std::process::Abort;

/// A row of a cookie `a=1` of `h.test` that was read at this moment, in milliseconds.
fn row(rt: &impl Abort, alloc: Global, access: i64) -> Row {
    Row {
        host: text(rt, alloc, "h.test"),
        name: text(rt, alloc, "a"),
        path: text(rt, alloc, "/"),
        value: text(rt, alloc, "1"),
        creation: 5,
        expiry: 9,
        access,
        secure: 1,
        http_only: 0,
        same_site: 3,
        priority: 2,
    }
}

#[test]
fn a_copied_row_is_the_same(rt: HostRuntime) {
    let row = row(&rt, rt.alloc(), 7);
    let copy = row.copy(rt.alloc()).expect(&rt, "memory for a copy");
    drop(row);
    let texts = [
        (copy.host.as_str(), "h.test"),
        (copy.name.as_str(), "a"),
        (copy.path.as_str(), "/"),
        (copy.value.as_str(), "1"),
    ];
    for (got, want) in texts {
        assert_eq!(rt; got, want);
    }
    assert_eq!(rt; [copy.creation, copy.expiry, copy.access], [5, 9, 7]);
    assert_eq!(rt;
        [copy.secure, copy.http_only, copy.same_site, copy.priority],
        [1, 0, 3, 2]
    );
    drop(copy);
}

/// How many rows a long list has.
const MANY: usize = 200;

/// That many rows, with these accesses from 0 on.
fn many_rows(rt: &impl Abort, alloc: Global) -> Rows {
    let mut rows = Rows::new(alloc);
    for access in 0..MANY as i64 {
        rows.push(row(rt, alloc, access))
            .expect(rt, "memory for a list");
    }
    rows
}

/// The access of the row at an index, in milliseconds.
fn access_at(rows: &Rows, index: usize) -> Option<i64> {
    rows.get(index).map(|row| row.access)
}

#[test]
fn copied_rows_are_all_there_and_in_order(rt: HostRuntime) {
    let rows = many_rows(&rt, rt.alloc());
    let copies = rows.copy(rt.alloc()).expect(&rt, "memory for a copy");
    drop(rows);
    assert_eq!(rt; copies.len(), MANY);
    assert_eq!(rt; access_at(&copies, 0), Some(0));
    assert_eq!(rt; access_at(&copies, MANY - 1), Some(199));
}

/// The host of what comes or goes by a change, and whether it comes.
fn told(change: &RowChange) -> (bool, &str) {
    match change {
        RowChange::Put(row) => (true, row.host.as_str()),
        RowChange::Drop(id) => (false, id.host.as_str()),
    }
}

/// Whether a copy of a change is of `h.test`, and comes or goes as this.
fn change_is_copied(rt: &impl Abort, alloc: Global, change: RowChange, comes: bool) -> bool {
    let copy = change.copy(alloc).expect(rt, "memory for a copy");
    let (came, host) = told(&copy);
    let same = came == comes && host == "h.test";
    drop(change);
    drop(copy);
    same
}

#[test]
fn a_copied_change_of_rows_is_the_same(rt: HostRuntime) {
    let put = RowChange::Put(row(&rt, rt.alloc(), 7));
    assert!(rt; change_is_copied(&rt, rt.alloc(), put, true));
    let gone = RowChange::Drop(id(&rt, rt.alloc(), ("h.test", "a", "/")));
    assert!(rt; change_is_copied(&rt, rt.alloc(), gone, false));
}
