//! Which actors wait for one another for ever.

use super::{fetch, refused, script, script_text};
use crate::refused::Refusal;
use std::alloc::Global;
use std::test::Fail;

/// A step that posts.
const POST: &str = "{\"now\":0,\"op\":\"post\"}";

/// A fetch that hears so many posts of an actor, and then posts.
fn hears(alloc: Global, actor: usize, n: usize) -> Result<String, Fail> {
    let steps = format!(in alloc;
        "{{\"actor\":{actor},\"n\":{n},\"now\":0,\"op\":\"hear\"}},{POST}"
    )?;
    fetch(alloc, steps.as_str())
}

/// A fetch that posts, and then hears so many posts of an actor.
fn posts_first(alloc: Global, actor: usize, n: usize) -> Result<String, Fail> {
    let steps = format!(in alloc;
        "{POST},{{\"actor\":{actor},\"n\":{n},\"now\":0,\"op\":\"hear\"}}"
    )?;
    fetch(alloc, steps.as_str())
}

/// The path of the deadlock of actors.
fn deadlock(alloc: Global, actors: &str) -> Result<String, Fail> {
    let text = script_text(alloc, actors, "")?;
    let why = refused(alloc, text.as_str())?;
    if why.name != Refusal::Deadlock {
        return Err("another refusal".into());
    }
    Ok(format!(in alloc; "{}", why.path.as_str())?)
}

#[test]
fn two_actors_that_hear_each_other_wait(rt: HostRuntime) -> Result<(), Fail> {
    let alloc = rt.alloc();
    let actors = format!(in alloc; "{},{}", hears(alloc, 1, 1)?, hears(alloc, 0, 1)?)?;
    assert_eq!(rt;
        deadlock(alloc, actors.as_str())?.as_str(),
        "/actors/0/steps/0"
    );
    Ok(())
}

#[test]
fn the_first_of_a_ring_is_named_behind_one_that_ends(rt: HostRuntime) -> Result<(), Fail> {
    let alloc = rt.alloc();
    let ends = fetch(alloc, POST)?;
    let second = posts_first(alloc, 2, 2)?;
    let third = posts_first(alloc, 3, 2)?;
    let fourth = posts_first(alloc, 1, 2)?;
    let actors = format!(in alloc; "{ends},{second},{third},{fourth}")?;
    assert_eq!(rt;
        deadlock(alloc, actors.as_str())?.as_str(),
        "/actors/1/steps/1"
    );
    Ok(())
}

#[test]
fn an_actor_waits_for_a_post_of_its_own(rt: HostRuntime) -> Result<(), Fail> {
    let alloc = rt.alloc();
    let actor = hears(alloc, 0, 1)?;
    assert_eq!(rt;
        deadlock(alloc, actor.as_str())?.as_str(),
        "/actors/0/steps/0"
    );
    Ok(())
}

#[test]
fn none_waits_where_a_post_comes_first(rt: HostRuntime) -> Result<(), Fail> {
    let alloc = rt.alloc();
    let actors = format!(in alloc; "{},{}", hears(alloc, 1, 1)?, posts_first(alloc, 0, 1)?)?;
    let text = script_text(alloc, actors.as_str(), "")?;
    assert_eq!(rt; script(alloc, text.as_str())?.actors.len(), 2);
    Ok(())
}
