//! What the jar does itself, copied.

use super::{cookie, moment, text};
use crate::{Cookies, Own};
use std::alloc::Global;
use std::process::Abort;

/// The word of what the jar does.
fn told(own: &Own) -> &str {
    match own {
        Own::Want(_) => "want",
        Own::WantAll => "want all",
        Own::Begun(_) => "begun",
        Own::Loaded { .. } => "loaded",
        Own::Lost(_) => "lost",
        Own::Whole(_) => "whole",
        Own::Taken => "taken",
        Own::Acked(_) => "acked",
        Own::CommitLost(_) => "commit lost",
    }
}

/// The key that it is of; `none` where it is of none.
fn key_of(own: &Own) -> &str {
    match own {
        Own::Want(key) | Own::Begun(key) | Own::Lost(key) | Own::Loaded { key, .. } => key.as_str(),
        _ => "none",
    }
}

/// How many cookies it lists, its moment in milliseconds, or its place; 0 where it has none.
pub fn number_of(own: &Own) -> u64 {
    match own {
        Own::Loaded { cookies, .. } => cookies.len() as u64,
        Own::Whole(now) => now.ms(),
        Own::Acked(place) | Own::CommitLost(place) => *place,
        _ => 0,
    }
}

/// What a copy of it tells: its word, its key and its number.
#[derive(Clone, Copy)]
struct Due {
    word: &'static str,
    key: &'static str,
    number: u64,
}

/// Whether a copy of it tells this.
fn is_copied(rt: &impl Abort, alloc: Global, own: Own, due: Due) -> bool {
    let copy = own.copy(alloc).expect(rt, "memory for a copy");
    let same = told(&copy) == due.word
        && key_of(&copy) == due.key
        && number_of(&copy) == due.number;
    drop(own);
    drop(copy);
    same
}

/// What a copy tells that is of a key alone.
fn of_key(word: &'static str) -> Due {
    Due {
        word,
        key: "h.test",
        number: 0,
    }
}

/// What a copy tells that has a number, and no key.
fn of_number(word: &'static str, number: u64) -> Due {
    Due {
        word,
        key: "none",
        number,
    }
}

#[test]
fn copied_wants_are_the_same(rt: HostRuntime) {
    let alloc = rt.alloc();
    let want = Own::Want(text(&rt, alloc, "h.test"));
    assert!(rt; is_copied(&rt, alloc, want, of_key("want")));
    assert!(rt; is_copied(&rt, alloc, Own::WantAll, of_number("want all", 0)));
}

#[test]
fn copied_loads_are_the_same(rt: HostRuntime) {
    let alloc = rt.alloc();
    let begun = Own::Begun(text(&rt, alloc, "h.test"));
    assert!(rt; is_copied(&rt, alloc, begun, of_key("begun")));
    let lost = Own::Lost(text(&rt, alloc, "h.test"));
    assert!(rt; is_copied(&rt, alloc, lost, of_key("lost")));
    let whole = Own::Whole(moment(&rt, 7));
    assert!(rt; is_copied(&rt, alloc, whole, of_number("whole", 7)));
}

/// A load of `h.test` that ended with one cookie.
fn loaded(rt: &impl Abort, alloc: Global) -> Own {
    let mut cookies = Cookies::new(alloc);
    cookies
        .push(cookie(rt, alloc, 5))
        .expect(rt, "memory for a list");
    Own::Loaded {
        key: text(rt, alloc, "h.test"),
        cookies,
    }
}

#[test]
fn a_copied_load_has_its_cookies(rt: HostRuntime) {
    let due = Due {
        number: 1,
        ..of_key("loaded")
    };
    let loaded = loaded(&rt, rt.alloc());
    assert!(rt; is_copied(&rt, rt.alloc(), loaded, due));
}

#[test]
fn copied_batches_are_the_same(rt: HostRuntime) {
    let alloc = rt.alloc();
    assert!(rt; is_copied(&rt, alloc, Own::Taken, of_number("taken", 0)));
    assert!(rt; is_copied(&rt, alloc, Own::Acked(8), of_number("acked", 8)));
    let lost = Own::CommitLost(9);
    assert!(rt; is_copied(&rt, alloc, lost, of_number("commit lost", 9)));
}
