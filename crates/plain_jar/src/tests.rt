//! The jar at worked cases, with ample memory.

ghost use Rattle.std.specs.Prelude.{◌≡◌, ◌-◌, ◌^◌, ◌<◌, IfOk};
ghost use Rattle.plain_jar.specs.Contents.{IsReady};

mod asks;
mod bars;
mod cells;
mod commits;
mod listeners;
mod loading;
mod moves;
mod plans;
mod posts;
mod rows;
mod runs;
mod stored;
mod words;

use crate::PlainJar;
use asks::{moment, op};
use jar_types::{Event, JarCore, NoMemory, Prepared};
use rows::{Row, delete, get, set, until, whole};
use runs::{fresh, gives, replies};
use std::alloc::Global;
use std::test::Fail;

#[test]
fn a_replacement_keeps_the_first_creation(rt: HostRuntime) -> Result<(), Fail> {
    let rows = [set("a", "/", 1000), set("a", "/", 2000), get(2001)];
    assert!(rt; gives(rt.alloc(), &rows, "stored;replaced;a 1000 2000;")?);
    Ok(())
}

#[test]
fn an_access_is_written_anew_after_a_minute(rt: HostRuntime) -> Result<(), Fail> {
    let rows = [set("a", "/", 0), get(59_999), get(60_000), get(60_001)];
    assert!(rt; gives(rt.alloc(), &rows, "stored;a 0 0;a 0 60000;a 0 60000;")?);
    Ok(())
}

#[test]
fn a_cookie_leaves_at_its_expiry(rt: HostRuntime) -> Result<(), Fail> {
    let rows = [until("a", 0, 100), get(99), get(100), until("a", 99, 100)];
    assert!(rt; gives(rt.alloc(), &rows, "stored;a 0 0;stored;")?);
    Ok(())
}

#[test]
fn an_expired_cookie_is_not_replaced(rt: HostRuntime) -> Result<(), Fail> {
    let rows = [
        until("a", 0, 100),
        until("a", 99, 200),
        until("a", 200, 300),
    ];
    assert!(rt; gives(rt.alloc(), &rows, "stored;replaced;stored;")?);
    Ok(())
}

#[test]
fn an_expired_new_cookie_takes_the_old_one_away(rt: HostRuntime) -> Result<(), Fail> {
    let rows = [
        until("a", 0, 10_000),
        set("b", "/", 0),
        until("a", 5, 0),
        until("c", 5, 5),
        get(6),
    ];
    let due = "stored;stored;removed;nothing there;b 0 0;";
    assert!(rt; gives(rt.alloc(), &rows, due)?);
    Ok(())
}

/// A Set of a cookie of a host of the key `h.test`.
fn of_host(host: &'static str, name: &'static str, path: &'static str, now: u64) -> Row {
    Row {
        host,
        ..set(name, path, now)
    }
}

#[test]
fn an_answer_has_longer_paths_then_earlier_creations_then_lesser_ids(
    rt: HostRuntime,
) -> Result<(), Fail> {
    let asked = Row {
        host: "www.h.test",
        path: "/a/b",
        ..get(6)
    };
    let rows = [
        of_host("www.h.test", "a", "/", 5),
        of_host(".h.test", "b", "/", 5),
        of_host(".h.test", "a", "/", 5),
        of_host("www.h.test", "c", "/", 1),
        of_host(".h.test", "z", "/a", 5),
        of_host("h.test", "no", "/", 5),
        asked,
    ];
    let due = "stored;stored;stored;stored;stored;stored;z 5 5;c 1 1;a 5 5;b 5 5;a 5 5;";
    assert!(rt; gives(rt.alloc(), &rows, due)?);
    Ok(())
}

#[test]
fn a_deleted_cookie_is_gone_and_no_other_is(rt: HostRuntime) -> Result<(), Fail> {
    let elsewhere = Row {
        path: "/docs",
        ..delete("a", 5)
    };
    let rows = [
        set("a", "/", 0),
        set("b", "/", 0),
        elsewhere,
        delete("a", 5),
        delete("a", 5),
        get(6),
    ];
    let due = "stored;stored;not there;there;not there;b 0 0;";
    assert!(rt; gives(rt.alloc(), &rows, due)?);
    Ok(())
}

#[test]
fn an_expired_cookie_is_not_there_to_be_deleted(rt: HostRuntime) -> Result<(), Fail> {
    let rows = [until("a", 0, 100), delete("a", 100)];
    assert!(rt; gives(rt.alloc(), &rows, "stored;not there;")?);
    Ok(())
}

/// Has the op of a row made ready.
fn made_ready(alloc: Global, jar: &mut PlainJar, row: &Row) -> Result<Prepared, NoMemory>
    requires { jar.old.state.entries < 2 ^ 64 - 1 }
    ensures ready { IfOk result (λ prepared. IsReady jar.new prepared) }
    ensures same { jar.new.state ≡ jar.old.state }
{
    let now = moment(row.now)?;
    let event = Event::Call {
        caller: row.caller,
        now,
        op: op(alloc, row, now)?,
    };
    match jar.prepare(alloc, &event) {
        Ok(prepared) => Ok(prepared),
        Err(_) => Err(NoMemory),
    }
}

/// What a jar answers that had two Sets made ready and settled the later one.
#[tactic(auto, using(crate::proofs::EntryLemmas::entries_rise))]
fn after_two(alloc: Global) -> Result<String, NoMemory> {
    let mut jar = fresh(alloc)?;
    let early = made_ready(alloc, &mut jar, &set("a", "/", 5))?;
    let late = made_ready(alloc, &mut jar, &set("b", "/", 5))?;
    drop(early);
    drop(jar.settle(late));
    replies(alloc, &mut jar, &[get(5)])
}

#[test]
fn an_entry_that_was_made_ready_before_another_changes_nothing(
    rt: HostRuntime,
) -> Result<(), Fail> {
    let text = after_two(rt.alloc())?;
    assert_eq!(rt; text.as_str(), "b 5 5;");
    Ok(())
}

#[test]
fn a_jar_becomes_whole_once(rt: HostRuntime) -> Result<(), Fail> {
    let rows = [whole(5), set("a", "/", 5), whole(5)];
    assert!(rt; gives(rt.alloc(), &rows, "jar;stored;no;")?);
    Ok(())
}
