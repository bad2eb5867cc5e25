//! Posts and Hears.

use super::rows::{Kind, Row, by, numbered};
use super::runs::gives;
use std::test::Fail;

/// A Hear of the posts of an actor up to a number.
fn hear(actor: u32, n: u64) -> Row {
    Row {
        actor,
        ..numbered(Kind::Hear, n)
    }
}

/// A Post of a caller.
fn post(caller: u32) -> Row {
    by(caller, numbered(Kind::Post, 0))
}

#[test]
fn a_hear_waits_for_the_posts_of_its_actor(rt: HostRuntime) -> Result<(), Fail> {
    let rows = [
        hear(1, 0),
        hear(1, 1),
        post(0),
        hear(1, 1),
        post(1),
        hear(1, 1),
        by(1, hear(0, 2)),
        post(0),
        by(1, hear(0, 2)),
    ];
    let due = "heard;not yet 0;posted 1;not yet 0;posted 1;heard;not yet 1;posted 2;heard;";
    assert!(rt; gives(rt.alloc(), &rows, due)?);
    Ok(())
}
