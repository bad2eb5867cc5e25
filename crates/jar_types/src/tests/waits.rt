//! What calls wait for, and what is loaded next.

use super::text;
use crate::{Awaited, CoreRefusal, LoadWish, NoMemory};
use std::alloc::Global;
use std::process::Abort;

/// The key that is awaited, or `all`.
fn told(awaited: &Awaited) -> &str {
    match awaited {
        Awaited::Key(key) => key.as_str(),
        Awaited::All => "all",
    }
}

/// Whether a copy of what is awaited tells this.
fn is_copied(rt: &impl Abort, alloc: Global, awaited: Awaited, due: &str) -> bool {
    let copy = awaited.copy(alloc).expect(rt, "memory for a copy");
    let same = told(&copy) == due;
    drop(awaited);
    drop(copy);
    same
}

#[test]
fn what_is_awaited_is_copied(rt: HostRuntime) {
    let key = Awaited::Key(text(&rt, rt.alloc(), "h.test"));
    assert!(rt; is_copied(&rt, rt.alloc(), key, "h.test"));
    assert!(rt; is_copied(&rt, rt.alloc(), Awaited::All, "all"));
}

/// The key that is to be loaded next, or what else is.
fn wished<'core>(wish: LoadWish<'core>) -> &'core str {
    match wish {
        LoadWish::Key(key) => key.as_str(),
        LoadWish::Whole => "whole",
        LoadWish::Idle => "idle",
    }
}

#[test]
fn a_wish_that_is_used_twice_is_the_same(rt: HostRuntime) {
    let key = text(&rt, rt.alloc(), "h.test");
    let wish = LoadWish::Key(&key);
    assert_eq!(rt; wished(wish), "h.test");
    assert_eq!(rt; wished(wish), "h.test");
    assert_eq!(rt; wished(LoadWish::Whole), "whole");
    assert_eq!(rt; wished(LoadWish::Idle), "idle");
    drop(key);
}

/// Whether a refusal says this.
fn says(rt: &impl Abort, alloc: Global, refusal: CoreRefusal, due: &str) -> bool {
    let text = format!(in alloc; "{refusal}").expect(rt, "memory for a text");
    let same = text.as_str() == due;
    drop(refusal);
    drop(text);
    same
}

#[test]
fn a_refusal_says_what_it_waits_for(rt: HostRuntime) {
    let alloc = rt.alloc();
    let key = CoreRefusal::Pending(Awaited::Key(text(&rt, alloc, "h.test")));
    assert!(rt; says(&rt, alloc, key, "the cookies of h.test aren't loaded"));
    let all = CoreRefusal::Pending(Awaited::All);
    assert!(rt; says(&rt, alloc, all, "not all cookies are loaded"));
    let wanting = CoreRefusal::NotYet { found: 3 };
    assert!(rt; says(&rt, alloc, wanting, "only 3 posts were made"));
    let memory = CoreRefusal::from(NoMemory);
    assert!(rt; says(&rt, alloc, memory, "out of memory"));
}
