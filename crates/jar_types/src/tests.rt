//! Each allocating call with ample memory, with its answer.
//!
//! Values that own texts are dropped by calls: where a function drops one at its end, the proof
//! there has a case for each of its forms.

mod journals;
mod ops;
mod owns;
mod replies;
mod rows;
mod waits;

use crate::{
    BoundKey, Cause, Change, Changes, Context, Cookie, CookieId, Listener, Moment, Priority,
    Request, SameSite, Scope, Tallies, Tally, Text, Texts,
};
use std::alloc::Global;
use std::cmp::Ordering;
use std::process::Abort;

/// A text.
pub fn text(rt: &impl Abort, alloc: Global, source: &str) -> Text {
    Text::of(alloc, source).expect(rt, "memory for a text")
}

/// The moment of these milliseconds.
pub fn moment(rt: &impl Abort, ms: u64) -> Moment {
    Moment::of(ms).expect(rt, "a moment")
}

/// A session cookie `a=1` of `h.test`, at this moment in milliseconds.
pub fn cookie(rt: &impl Abort, alloc: Global, ms: u64) -> Cookie {
    let now = moment(rt, ms);
    Cookie {
        key: text(rt, alloc, "h.test"),
        host: text(rt, alloc, "h.test"),
        name: text(rt, alloc, "a"),
        path: text(rt, alloc, "/"),
        value: text(rt, alloc, "1"),
        creation: now,
        access: now,
        expiry: None,
        secure: false,
        http_only: false,
        same_site: SameSite::Unspecified,
        priority: Priority::Medium,
    }
}

/// A request of `h.test`.
pub fn request(rt: &impl Abort, alloc: Global) -> Request {
    Request {
        key: text(rt, alloc, "test"),
        host: text(rt, alloc, "h.test"),
        path: text(rt, alloc, "/a"),
        secure: true,
        script: false,
        context: Context::Lax,
    }
}

/// A host, a name and a path.
pub type Parts = (&'static str, &'static str, &'static str);

/// The id of these parts.
pub fn id(rt: &impl Abort, alloc: Global, parts: Parts) -> CookieId {
    CookieId {
        host: text(rt, alloc, parts.0),
        name: text(rt, alloc, parts.1),
        path: text(rt, alloc, parts.2),
    }
}

/// How the ids of these parts stand to each other.
fn order(rt: &impl Abort, alloc: Global, one: Parts, other: Parts) -> Ordering {
    let first = id(rt, alloc, one);
    let second = id(rt, alloc, other);
    let order = first.order(&second);
    drop(first);
    drop(second);
    order
}

#[test]
fn ids_are_ordered_by_host_then_name_then_path(rt: HostRuntime) {
    for (lesser, greater) in [
        (("a.test", "a", "/b"), ("a.test", "b", "/")),
        (("a.test", "b", "/"), ("a.test", "b", "/a")),
        (("a.test", "b", "/a"), ("b.test", "a", "/")),
    ] {
        assert_eq!(rt; order(&rt, rt.alloc(), lesser, greater), Ordering::Less);
        assert_eq!(rt; order(&rt, rt.alloc(), lesser, lesser), Ordering::Equal);
    }
}

#[test]
fn a_copied_id_is_the_same(rt: HostRuntime) {
    let first = id(&rt, rt.alloc(), ("h.test", "a", "/"));
    let copy = first.copy(rt.alloc()).expect(&rt, "memory for a copy");
    assert!(rt; copy == first);
    drop(first);
    drop(copy);
}

/// A change of a cookie, with this cause.
pub fn change(rt: &impl Abort, alloc: Global, cause: Cause) -> Change {
    Change {
        cause,
        cookie: cookie(rt, alloc, 5),
    }
}

/// Whether a copy of a change with this cause has that cause, and its cookie.
fn change_is_copied(rt: &impl Abort, alloc: Global, cause: Cause) -> bool {
    let change = change(rt, alloc, cause);
    let copy = change.copy(alloc).expect(rt, "memory for a copy");
    let same = copy.cause == cause && copy.cookie.value.as_str() == "1";
    drop(change);
    drop(copy);
    same
}

#[test]
fn a_copied_change_has_its_cause_and_its_cookie(rt: HostRuntime) {
    let causes = [
        Cause::Inserted,
        Cause::Explicit,
        Cause::Overwrite,
        Cause::Expired,
        Cause::Evicted,
        Cause::ExpiredOverwrite,
    ];
    for cause in causes {
        assert!(rt; change_is_copied(&rt, rt.alloc(), cause), "{cause:?}");
    }
}

/// A listener 2 of caller 1 for all changes, with one that it has not taken.
fn listener(rt: &impl Abort, alloc: Global) -> Listener {
    let mut untaken = Changes::new(alloc);
    untaken
        .push(change(rt, alloc, Cause::Explicit))
        .expect(rt, "memory for a list");
    Listener {
        caller: 1,
        number: 2,
        scope: Scope::All,
        untaken,
    }
}

#[test]
fn a_copied_listener_is_the_same(rt: HostRuntime) {
    let listener = listener(&rt, rt.alloc());
    let copy = listener.copy(rt.alloc()).expect(&rt, "memory for a copy");
    assert_eq!(rt; copy.caller, 1);
    assert_eq!(rt; copy.number, 2);
    assert_eq!(rt; copy.untaken.len(), 1);
    assert!(rt; matches!(copy.scope, Scope::All));
    drop(listener);
    drop(copy);
}

#[test]
fn a_copied_bound_key_is_the_same(rt: HostRuntime) {
    let bound = BoundKey {
        key: text(&rt, rt.alloc(), "h.test"),
        version: 7,
    };
    let copy = bound.copy(rt.alloc()).expect(&rt, "memory for a copy");
    assert_eq!(rt; copy.key.as_str(), "h.test");
    assert_eq!(rt; copy.version, 7);
    drop(bound);
    drop(copy);
}

#[test]
fn copied_tallies_are_the_same(rt: HostRuntime) {
    let mut tallies = Tallies::new(rt.alloc());
    tallies
        .push(Tally {
            caller: 3,
            count: 4,
        })
        .expect(&rt, "memory for a list");
    let copies = tallies.copy(rt.alloc()).expect(&rt, "memory for a copy");
    assert_eq!(rt; copies.get(0).map(|tally| tally.caller), Some(3));
    assert_eq!(rt; copies.get(0).map(|tally| tally.count), Some(4));
}

#[test]
fn texts_are_exported_with_their_lists(rt: HostRuntime) {
    let mut texts = Texts::new(rt.alloc());
    texts
        .push(text(&rt, rt.alloc(), "h.test"))
        .expect(&rt, "memory for a list");
    assert_eq!(rt; texts.get(0).map(Text::as_str), Some("h.test"));
}
