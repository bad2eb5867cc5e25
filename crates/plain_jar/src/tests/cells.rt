//! Bound keys, and what scripts are answered.

use super::rows::{Kind, Row, about, ask, set, until};
use super::runs::gives;
use std::test::Fail;

#[test]
fn a_key_gets_the_next_cell_and_keeps_it(rt: HostRuntime) -> Result<(), Fail> {
    let rows = [
        about(Kind::Cell, "h.test"),
        about(Kind::Bind, "h.test"),
        about(Kind::Bind, "i.test"),
        about(Kind::Bind, "h.test"),
        about(Kind::Cell, "i.test"),
    ];
    let due = "no cell;cell 1;cell 2;cell 1;cell 2;";
    assert!(rt; gives(rt.alloc(), &rows, due)?);
    Ok(())
}

/// A Set of a cookie of another key.
fn elsewhere(now: u64) -> Row {
    Row {
        key: "i.test",
        host: "i.test",
        ..set("a", "/", now)
    }
}

// A key that isn't bound has no version. A Set raises the version of its own key, and a refreshed access raises none.
#[test]
fn a_script_is_told_text_version_and_until(rt: HostRuntime) -> Result<(), Fail> {
    let rows = [
        ask(0),
        set("a", "/", 0),
        ask(1),
        about(Kind::Bind, "h.test"),
        ask(2),
        set("b", "/", 3),
        ask(60_000),
        elsewhere(60_001),
        ask(60_002),
    ];
    let due = "|-|253402300800000;stored;a=1|-|60000;cell 1;a=1|0|60000;stored;\
        a=1; b=1|1|60003;stored;a=1; b=1|1|60003;";
    assert!(rt; gives(rt.alloc(), &rows, due)?);
    Ok(())
}

#[test]
fn a_purge_raises_the_version(rt: HostRuntime) -> Result<(), Fail> {
    let rows = [
        about(Kind::Bind, "h.test"),
        until("a", 0, 100),
        ask(99),
        ask(100),
    ];
    let due = "cell 1;stored;a=1|1|100;|2|253402300800000;";
    assert!(rt; gives(rt.alloc(), &rows, due)?);
    Ok(())
}

// The cookie of another path isn't in the answer, and may be in the next one where it expires.
#[test]
fn an_answer_is_kept_until_another_cookie_of_its_key_expires(rt: HostRuntime) -> Result<(), Fail> {
    let other = Row {
        path: "/other",
        ..until("b", 0, 50)
    };
    let of_another_key = Row {
        expiry: Some(40),
        ..elsewhere(0)
    };
    let rows = [set("a", "/", 0), other, of_another_key, ask(1)];
    assert!(rt; gives(rt.alloc(), &rows, "stored;stored;stored;a=1|-|50;")?);
    Ok(())
}
