//! Ops and scopes, copied.

use super::{cookie, id, request, text};
use crate::{Op, Scope};
use std::alloc::Global;
use std::process::Abort;

/// The key that an op binds, the host that it is about, or its word.
fn told(op: &Op) -> &str {
    match op {
        Op::Bind(key) => key.as_str(),
        Op::Set { cookie, .. } => cookie.host.as_str(),
        Op::Get(request) => request.host.as_str(),
        Op::Delete { id, .. } => id.host.as_str(),
        Op::All => "all",
        Op::Clear => "clear",
        Op::Listen(_) => "listen",
        Op::Changes(_) => "changes",
        Op::Unlisten(_) => "unlisten",
        Op::Post => "post",
        Op::Hear { .. } => "hear",
    }
}

/// The number of an op; 0 where it has none.
fn number_of(op: &Op) -> u64 {
    match op {
        Op::Changes(number) | Op::Unlisten(number) => *number,
        Op::Hear { n, .. } => *n,
        _ => 0,
    }
}

/// Whether a copy of an op tells this, and has this number.
fn is_copied(rt: &impl Abort, alloc: Global, op: Op, due: &str, number: u64) -> bool {
    let copy = op.copy(alloc).expect(rt, "memory for a copy");
    let same = told(&copy) == due && number_of(&copy) == number;
    drop(op);
    drop(copy);
    same
}

#[test]
fn a_copied_bind_is_the_same(rt: HostRuntime) {
    let bind = Op::Bind(text(&rt, rt.alloc(), "test"));
    assert!(rt; is_copied(&rt, rt.alloc(), bind, "test", 0));
}

#[test]
fn a_copied_set_is_the_same(rt: HostRuntime) {
    let set = Op::Set {
        cookie: cookie(&rt, rt.alloc(), 5),
        script: false,
        secure: true,
    };
    assert!(rt; is_copied(&rt, rt.alloc(), set, "h.test", 0));
}

#[test]
fn a_copied_get_is_the_same(rt: HostRuntime) {
    let get = Op::Get(request(&rt, rt.alloc()));
    assert!(rt; is_copied(&rt, rt.alloc(), get, "h.test", 0));
}

#[test]
fn a_copied_delete_is_the_same(rt: HostRuntime) {
    let delete = Op::Delete {
        key: text(&rt, rt.alloc(), "test"),
        id: id(&rt, rt.alloc(), ("h.test", "a", "/")),
    };
    assert!(rt; is_copied(&rt, rt.alloc(), delete, "h.test", 0));
}

#[test]
fn copied_ops_on_all_cookies_are_the_same(rt: HostRuntime) {
    let alloc = rt.alloc();
    assert!(rt; is_copied(&rt, alloc, Op::All, "all", 0));
    assert!(rt; is_copied(&rt, alloc, Op::Clear, "clear", 0));
}

#[test]
fn copied_ops_of_listeners_are_the_same(rt: HostRuntime) {
    let alloc = rt.alloc();
    assert!(rt; is_copied(&rt, alloc, Op::Listen(Scope::All), "listen", 0));
    assert!(rt; is_copied(&rt, alloc, Op::Changes(7), "changes", 7));
    assert!(rt; is_copied(&rt, alloc, Op::Unlisten(8), "unlisten", 8));
}

#[test]
fn copied_posts_and_hears_are_the_same(rt: HostRuntime) {
    let alloc = rt.alloc();
    assert!(rt; is_copied(&rt, alloc, Op::Post, "post", 0));
    assert!(rt; is_copied(&rt, alloc, Op::Hear { actor: 3, n: 9 }, "hear", 9));
}

/// The name that a scope admits, the host that its request asks, or its word.
fn admitted(scope: &Scope) -> &str {
    match scope {
        Scope::All => "all",
        Scope::Seen(request) => request.host.as_str(),
        Scope::Named(_, name) => name.as_str(),
    }
}

/// Whether a copy of a scope admits this.
fn scope_is_copied(rt: &impl Abort, alloc: Global, scope: Scope, due: &str) -> bool {
    let copy = scope.copy(alloc).expect(rt, "memory for a copy");
    let same = admitted(&copy) == due;
    drop(scope);
    drop(copy);
    same
}

#[test]
fn copied_scopes_are_the_same(rt: HostRuntime) {
    let alloc = rt.alloc();
    assert!(rt; scope_is_copied(&rt, alloc, Scope::All, "all"));
    let seen = Scope::Seen(request(&rt, alloc));
    assert!(rt; scope_is_copied(&rt, alloc, seen, "h.test"));
    let named = Scope::Named(request(&rt, alloc), text(&rt, alloc, "a"));
    assert!(rt; scope_is_copied(&rt, alloc, named, "a"));
}
