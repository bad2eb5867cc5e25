//! Replies, copied.

use super::{change, cookie, text};
use crate::{Cause, Changes, Cookies, Reply};
use std::alloc::Global;
use std::process::Abort;

/// The word of a reply, and the text of one to a script.
fn told(reply: &Reply) -> &str {
    match reply {
        Reply::Cell(_) => "cell",
        Reply::Stored => "stored",
        Reply::Replaced => "replaced",
        Reply::Removed => "removed",
        Reply::NothingThere => "nothing there",
        Reply::OverwriteSecure => "overwrite secure",
        Reply::OverwriteHttpOnly => "overwrite http only",
        Reply::Cookies(_) => "cookies",
        Reply::Script { text, .. } => text.as_str(),
        Reply::Flag(_) => "flag",
        Reply::Count(_) => "count",
        Reply::Listener(_) => "listener",
        Reply::Changes(_) => "changes",
        Reply::NoListener => "no listener",
        Reply::Posted(_) => "posted",
        Reply::Heard => "heard",
        Reply::StoreFault => "store fault",
    }
}

/// The number of a reply: a count of what it has, a cell, a version, or 1 for a flag that is set.
fn number_of(reply: &Reply) -> u64 {
    match reply {
        Reply::Cell(Some(cell)) => u64::from(*cell),
        Reply::Cookies(cookies) => cookies.len() as u64,
        Reply::Script {
            version: Some(version),
            ..
        } => *version,
        Reply::Flag(flag) => u64::from(*flag),
        Reply::Listener(number) | Reply::Posted(number) | Reply::Count(number) => *number,
        Reply::Changes(changes) => changes.len() as u64,
        _ => 0,
    }
}

/// Whether a copy of a reply tells this, and has this number.
fn is_copied(rt: &impl Abort, alloc: Global, reply: Reply, due: &str, number: u64) -> bool {
    let copy = reply.copy(alloc).expect(rt, "memory for a copy");
    let same = told(&copy) == due && number_of(&copy) == number;
    drop(reply);
    drop(copy);
    same
}

#[test]
fn copied_replies_to_a_set_are_the_same(rt: HostRuntime) {
    let alloc = rt.alloc();
    assert!(rt; is_copied(&rt, alloc, Reply::Stored, "stored", 0));
    assert!(rt; is_copied(&rt, alloc, Reply::Replaced, "replaced", 0));
    assert!(rt; is_copied(&rt, alloc, Reply::Removed, "removed", 0));
    assert!(rt; is_copied(&rt, alloc, Reply::NothingThere, "nothing there", 0));
}

#[test]
fn copied_refusals_to_overwrite_are_the_same(rt: HostRuntime) {
    let alloc = rt.alloc();
    assert!(rt; is_copied(&rt, alloc, Reply::OverwriteSecure, "overwrite secure", 0));
    assert!(rt;
        is_copied(
            &rt,
            alloc,
            Reply::OverwriteHttpOnly,
            "overwrite http only",
            0
        )
    );
}

#[test]
fn copied_cells_and_flags_are_the_same(rt: HostRuntime) {
    let alloc = rt.alloc();
    assert!(rt; is_copied(&rt, alloc, Reply::Cell(Some(4096)), "cell", 4096));
    assert!(rt; is_copied(&rt, alloc, Reply::Cell(None), "cell", 0));
    assert!(rt; is_copied(&rt, alloc, Reply::Flag(true), "flag", 1));
    assert!(rt; is_copied(&rt, alloc, Reply::Flag(false), "flag", 0));
}

#[test]
fn copied_counts_and_faults_are_the_same(rt: HostRuntime) {
    let alloc = rt.alloc();
    assert!(rt; is_copied(&rt, alloc, Reply::Count(3300), "count", 3300));
    assert!(rt; is_copied(&rt, alloc, Reply::StoreFault, "store fault", 0));
}

#[test]
fn copied_replies_to_listeners_are_the_same(rt: HostRuntime) {
    let alloc = rt.alloc();
    assert!(rt; is_copied(&rt, alloc, Reply::Listener(7), "listener", 7));
    assert!(rt; is_copied(&rt, alloc, Reply::NoListener, "no listener", 0));
}

#[test]
fn copied_replies_to_posts_are_the_same(rt: HostRuntime) {
    let alloc = rt.alloc();
    assert!(rt; is_copied(&rt, alloc, Reply::Posted(8), "posted", 8));
    assert!(rt; is_copied(&rt, alloc, Reply::Heard, "heard", 0));
}

#[test]
fn a_copied_reply_has_all_its_changes(rt: HostRuntime) {
    let mut changes = Changes::new(rt.alloc());
    changes
        .push(change(&rt, rt.alloc(), Cause::Explicit))
        .expect(&rt, "memory for a list");
    assert!(rt; is_copied(&rt, rt.alloc(), Reply::Changes(changes), "changes", 1));
}

/// A reply to a script, `a=1`, at version 3.
fn to_script(rt: &impl Abort, alloc: Global) -> Reply {
    Reply::Script {
        text: text(rt, alloc, "a=1"),
        version: Some(3),
        until: 9,
    }
}

/// Until when the text of a reply may be kept; 0 for one that has none.
fn until_of(reply: &Reply) -> u64 {
    match reply {
        Reply::Script { until, .. } => *until,
        _ => 0,
    }
}

#[test]
fn a_copied_reply_to_a_script_is_the_same(rt: HostRuntime) {
    let reply = to_script(&rt, rt.alloc());
    assert!(rt; is_copied(&rt, rt.alloc(), reply, "a=1", 3));
}

#[test]
fn a_copied_reply_to_a_script_is_kept_as_long(rt: HostRuntime) {
    let reply = to_script(&rt, rt.alloc());
    let copy = reply.copy(rt.alloc()).expect(&rt, "memory for a copy");
    assert_eq!(rt; until_of(&copy), 9);
    drop(reply);
    drop(copy);
}

/// How many values a long list has.
const MANY: usize = 200;

/// That many cookies, with these accesses from 0 on.
fn many(rt: &impl Abort, alloc: Global) -> Cookies {
    let mut cookies = Cookies::new(alloc);
    for access in 0..MANY as u64 {
        cookies
            .push(cookie(rt, alloc, access))
            .expect(rt, "memory for a list");
    }
    cookies
}

/// The access of the last cookie of a reply, in milliseconds.
fn last_access(reply: &Reply) -> Option<u64> {
    match reply {
        Reply::Cookies(cookies) => cookies.get(MANY - 1).map(|last| last.access.ms()),
        _ => None,
    }
}

#[test]
fn a_copied_reply_has_all_its_cookies(rt: HostRuntime) {
    let reply = Reply::Cookies(many(&rt, rt.alloc()));
    let copy = reply.copy(rt.alloc()).expect(&rt, "memory for a copy");
    assert_eq!(rt; last_access(&copy), Some(199));
    drop(reply);
    drop(copy);
}
