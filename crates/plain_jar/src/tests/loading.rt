//! The loading of stored cookies. The keys `h.test` and `i.test` have some.

use super::rows::{
    Kind, Row, SET, about, ask, elsewhere, get, loaded, moving, numbered, set, until, whole,
};
use super::runs::{gives, gives_of_stored};
use std::test::Fail;

/// What the jar does itself for `h.test`.
fn own(kind: Kind) -> Row {
    about(kind, "h.test")
}

/// A row that asks nothing but this.
fn plain(kind: Kind) -> Row {
    Row { kind, ..SET }
}

#[test]
fn a_call_waits_for_its_key_and_no_other(rt: HostRuntime) -> Result<(), Fail> {
    let of_another = Row {
        key: "j.test",
        host: "j.test",
        ..set("a", "/", 0)
    };
    let delete = Row {
        kind: Kind::Delete,
        ..elsewhere(SET)
    };
    let rows = [
        set("a", "/", 0),
        get(0),
        delete,
        of_another,
        about(Kind::Bind, "h.test"),
        numbered(Kind::Post, 0),
    ];
    let due = "pending h.test;pending h.test;pending i.test;stored;cell 1;posted 1;";
    assert!(rt; gives_of_stored(rt.alloc(), &rows, due)?);
    Ok(())
}

#[test]
fn keys_are_loaded_in_their_order(rt: HostRuntime) -> Result<(), Fail> {
    let rows = [
        plain(Kind::Next),
        elsewhere(own(Kind::Begun)),
        own(Kind::Begun),
        own(Kind::Begun),
        plain(Kind::Next),
        elsewhere(loaded(0, 0)),
        loaded(2, 5),
        plain(Kind::Next),
        get(7),
        elsewhere(own(Kind::Begun)),
        elsewhere(loaded(0, 0)),
        plain(Kind::Next),
        whole(9),
        plain(Kind::Next),
    ];
    let due = "next h.test;no;jar;no;next h.test;no;jar;next i.test;a1 5 5;a2 5 5;jar;jar;next all;\
        jar;idle;";
    assert!(rt; gives_of_stored(rt.alloc(), &rows, due)?);
    Ok(())
}

// The key that callers wait for is loaded before the lesser one, and one whose load has begun before it.
#[test]
fn a_wanted_key_is_loaded_first(rt: HostRuntime) -> Result<(), Fail> {
    let rows = [
        elsewhere(own(Kind::Want)),
        elsewhere(own(Kind::Want)),
        elsewhere(own(Kind::Wanted)),
        own(Kind::Wanted),
        plain(Kind::Next),
        elsewhere(own(Kind::Begun)),
        own(Kind::Want),
        plain(Kind::Next),
        elsewhere(loaded(1, 0)),
        elsewhere(own(Kind::Wanted)),
        elsewhere(own(Kind::Want)),
        plain(Kind::Next),
        elsewhere(get(0)),
        get(0),
    ];
    let due =
        "jar;no;wanted;not wanted;next i.test;jar;jar;next i.test;jar;not wanted;no;next h.test;\
        a1 0 0;pending h.test;";
    assert!(rt; gives_of_stored(rt.alloc(), &rows, due)?);
    Ok(())
}

// The one call that finds the mark is told; the next one waits again, and then the load is made up for.
#[test]
fn a_lost_load_is_told_once_and_made_up_for(rt: HostRuntime) -> Result<(), Fail> {
    let rows = [
        get(0),
        own(Kind::Want),
        own(Kind::Begun),
        own(Kind::Lost),
        own(Kind::Lost),
        own(Kind::Want),
        elsewhere(get(1)),
        get(1),
        get(1),
        own(Kind::Want),
        own(Kind::Begun),
        loaded(1, 2),
        get(3),
    ];
    let due =
        "pending h.test;jar;jar;jar;no;no;pending i.test;store fault;pending h.test;jar;jar;jar;\
        a1 2 2;";
    assert!(rt; gives_of_stored(rt.alloc(), &rows, due)?);
    Ok(())
}

#[test]
fn a_lost_load_that_nobody_waits_for_is_not_told(rt: HostRuntime) -> Result<(), Fail> {
    let rows = [
        own(Kind::Begun),
        own(Kind::Lost),
        plain(Kind::Next),
        get(0),
        own(Kind::Begun),
        loaded(1, 1),
        get(2),
    ];
    let due = "jar;jar;next h.test;pending h.test;jar;jar;a1 1 1;";
    assert!(rt; gives_of_stored(rt.alloc(), &rows, due)?);
    Ok(())
}

// A key that was marked is loaded all the same, and then nobody is told.
#[test]
fn a_loaded_key_has_no_mark(rt: HostRuntime) -> Result<(), Fail> {
    let rows = [
        own(Kind::Want),
        own(Kind::Begun),
        own(Kind::Lost),
        own(Kind::Begun),
        loaded(1, 1),
        get(2),
        set("b", "/", 3),
    ];
    let due = "jar;jar;jar;jar;jar;a1 1 1;stored;";
    assert!(rt; gives_of_stored(rt.alloc(), &rows, due)?);
    Ok(())
}

#[test]
fn all_and_clear_wait_for_the_whole_jar(rt: HostRuntime) -> Result<(), Fail> {
    let rows = [
        plain(Kind::All),
        plain(Kind::Clear),
        whole(0),
        plain(Kind::WantAll),
        plain(Kind::WantAll),
        plain(Kind::AllWanted),
        own(Kind::Begun),
        loaded(2, 0),
        plain(Kind::All),
        elsewhere(own(Kind::Begun)),
        elsewhere(loaded(1, 0)),
        plain(Kind::Clear),
        whole(0),
        whole(0),
        plain(Kind::AllWanted),
        plain(Kind::WantAll),
        plain(Kind::All),
        plain(Kind::Clear),
        plain(Kind::All),
        plain(Kind::Clear),
    ];
    let due =
        "pending all;pending all;no;jar;no;wanted;jar;jar;pending all;jar;jar;pending all;jar;no;\
        not wanted;no;a1 0 0;a2 0 0;a1 0 0;cleared 3;cleared 0;";
    assert!(rt; gives_of_stored(rt.alloc(), &rows, due)?);
    Ok(())
}

// The one call that finds the mark is told, whatever key was lost; the next one waits again.
#[test]
fn a_load_that_is_lost_while_all_is_wanted_is_told_once(rt: HostRuntime) -> Result<(), Fail> {
    let rows = [
        plain(Kind::WantAll),
        own(Kind::Begun),
        own(Kind::Lost),
        plain(Kind::AllWanted),
        plain(Kind::WantAll),
        get(0),
        plain(Kind::Clear),
        plain(Kind::All),
        plain(Kind::WantAll),
        own(Kind::Begun),
        loaded(0, 0),
    ];
    let due = "jar;jar;jar;not wanted;no;pending h.test;store fault;pending all;jar;jar;jar;";
    assert!(rt; gives_of_stored(rt.alloc(), &rows, due)?);
    Ok(())
}

#[test]
fn a_jar_without_stored_cookies_becomes_whole_at_once(rt: HostRuntime) -> Result<(), Fail> {
    let rows = [
        plain(Kind::Next),
        plain(Kind::All),
        own(Kind::Want),
        own(Kind::Begun),
        whole(5),
        plain(Kind::Next),
        plain(Kind::All),
        set("a", "/", 5),
        whole(5),
    ];
    let due = "next all;pending all;no;no;jar;idle;stored;no;";
    assert!(rt; gives(rt.alloc(), &rows, due)?);
    Ok(())
}

// What leaves at All and Clear is told as each cause: one by expiry, the others by the caller.
#[test]
fn all_and_clear_tell_what_leaves(rt: HostRuntime) -> Result<(), Fail> {
    let at = |kind| Row {
        kind,
        now: 100,
        ..SET
    };
    let rows = [
        whole(0),
        numbered(Kind::ListenAll, 0),
        until("a", 0, 100),
        elsewhere(until("b", 0, 100)),
        set("c", "/", 0),
        elsewhere(set("d", "/", 0)),
        moving(at(Kind::All)),
        moving(at(Kind::All)),
        moving(at(Kind::Clear)),
        numbered(Kind::Changes, 1),
        ask(101),
    ];
    let due =
        "jar;listener 1;stored;stored;stored;stored;moved h.test i.test;moved;moved h.test i.test;\
        took[inserted a 0 0][inserted b 0 0][inserted c 0 0][inserted d 0 0][expired a 0 0]\
        [expired b 0 0][explicit c 0 0][explicit d 0 0];|-|253402300800000;";
    assert!(rt; gives(rt.alloc(), &rows, due)?);
    Ok(())
}
