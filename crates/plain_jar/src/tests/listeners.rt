//! Listeners: what they get, and once.

use super::plans::add_sets;
use super::rows::{Kind, Row, by, delete, get, numbered, set, until};
use super::runs::{all_replies, gives};
use jar_types::NoMemory;
use std::alloc::Global;
use std::test::Fail;

/// A Listen for each change.
fn listen() -> Row {
    numbered(Kind::ListenAll, 0)
}

/// That the changes of a listener are taken.
fn take(number: u64) -> Row {
    numbered(Kind::Changes, number)
}

#[test]
fn an_overwrite_is_told_before_what_was_inserted_and_once(rt: HostRuntime) -> Result<(), Fail> {
    let rows = [
        listen(),
        set("a", "/", 0),
        set("a", "/", 5),
        take(1),
        take(1),
    ];
    let due =
        "listener 1;stored;replaced;took[inserted a 0 0][overwrite a 0 0][inserted a 0 5];took;";
    assert!(rt; gives(rt.alloc(), &rows, due)?);
    Ok(())
}

#[test]
fn a_listener_gets_nothing_of_before_it_was_registered(rt: HostRuntime) -> Result<(), Fail> {
    let rows = [set("a", "/", 0), listen(), take(1)];
    assert!(rt; gives(rt.alloc(), &rows, "stored;listener 1;took;")?);
    Ok(())
}

#[test]
fn a_listener_that_ended_is_there_no_more(rt: HostRuntime) -> Result<(), Fail> {
    let end = numbered(Kind::Unlisten, 1);
    let rows = [listen(), end, take(1), end, listen()];
    let due = "listener 1;there;no listener;not there;listener 2;";
    assert!(rt; gives(rt.alloc(), &rows, due)?);
    Ok(())
}

// A request for /docs/web of h.test; the name is a.
#[test]
fn a_listener_gets_what_its_scope_admits(rt: HostRuntime) -> Result<(), Fail> {
    let other_key = Row {
        key: "i.test",
        host: "i.test",
        ..set("a", "/", 0)
    };
    let rows = [
        listen(),
        numbered(Kind::ListenSeen, 0),
        numbered(Kind::ListenNamed, 0),
        set("a", "/", 0),
        set("b", "/", 0),
        set("c", "/other", 0),
        other_key,
        take(1),
        take(2),
        take(3),
    ];
    let due = "listener 1;listener 2;listener 3;stored;stored;stored;stored;\
        took[inserted a 0 0][inserted b 0 0][inserted c 0 0][inserted a 0 0];\
        took[inserted a 0 0][inserted b 0 0];took[inserted a 0 0];";
    assert!(rt; gives(rt.alloc(), &rows, due)?);
    Ok(())
}

#[test]
fn a_script_hears_of_no_http_only_cookie(rt: HostRuntime) -> Result<(), Fail> {
    let hidden = Row {
        http_only: true,
        ..set("a", "/", 0)
    };
    let by_script = Row {
        script: true,
        ..numbered(Kind::ListenSeen, 0)
    };
    let rows = [
        by_script,
        numbered(Kind::ListenSeen, 0),
        hidden,
        take(1),
        take(2),
    ];
    let due = "listener 1;listener 2;stored;took;took[inserted a 0 0];";
    assert!(rt; gives(rt.alloc(), &rows, due)?);
    Ok(())
}

#[test]
fn each_caller_has_his_own_listeners(rt: HostRuntime) -> Result<(), Fail> {
    let rows = [
        listen(),
        by(1, listen()),
        listen(),
        set("a", "/", 0),
        by(1, take(1)),
        by(1, take(2)),
        take(1),
    ];
    let due =
        "listener 1;listener 1;listener 2;stored;took[inserted a 0 0];no listener;took[inserted a 0 0];";
    assert!(rt; gives(rt.alloc(), &rows, due)?);
    Ok(())
}

#[test]
fn each_change_is_told_with_its_cause(rt: HostRuntime) -> Result<(), Fail> {
    let rows = [
        listen(),
        until("a", 0, 100),
        get(100),
        set("a", "/", 101),
        until("a", 102, 5),
        set("b", "/", 103),
        delete("b", 104),
        take(1),
    ];
    let due = "listener 1;stored;stored;removed;stored;there;\
        took[inserted a 0 0][expired a 0 0][inserted a 101 101][expired overwrite a 101 101]\
        [inserted b 103 103][explicit b 103 103];";
    assert!(rt; gives(rt.alloc(), &rows, due)?);
    Ok(())
}

/// What a jar answers that is listened to when a key gets one cookie too many.
fn replies_of_a_full_key(alloc: Global) -> Result<String, NoMemory> {
    let mut rows = Vec::new(alloc);
    add_sets(&mut rows, "h.test", 180)?;
    rows.push(listen())?;
    rows.push(set("last", "/", 181))?;
    rows.push(take(1))?;
    all_replies(alloc, rows.as_slice())
}

/// The changes by which 31 cookies of a key leave.
fn evictions(alloc: Global) -> Result<String, NoMemory> {
    let mut told = String::from_str(alloc, "took[inserted last 181 181]")?;
    for number in 1..32_u64 {
        let part = format!(in alloc; "[evicted n{number} {number} {number}]")?;
        told.push_str(part.as_str())?;
    }
    Ok(told)
}

#[test]
fn evicted_cookies_are_told_least_accessed_first(rt: HostRuntime) -> Result<(), Fail> {
    let text = replies_of_a_full_key(rt.alloc())?;
    let due = evictions(rt.alloc())?;
    assert!(rt; text.as_str().contains(due.as_str()));
    assert!(rt; !text.as_str().contains("evicted n32 "));
    Ok(())
}
