//! How many actors and steps a script may have.

use super::{fetch, refused, script, script_text};
use crate::refused::Refusal;
use std::alloc::Global;
use std::test::Fail;

/// A text so many times, with commas between.
fn times(alloc: Global, text: &str, count: usize) -> Result<String, Fail> {
    let mut all = String::new(alloc);
    for index in 0..count {
        if index > 0 {
            all.push_str(",")?;
        }
        all.push_str(text)?;
    }
    Ok(all)
}

/// A fetch that posts so often.
fn posts(alloc: Global, count: usize) -> Result<String, Fail> {
    let steps = times(alloc, "{\"now\":0,\"op\":\"post\"}", count)?;
    fetch(alloc, steps.as_str())
}

#[test]
fn a_script_has_at_most_64_actors(rt: HostRuntime) -> Result<(), Fail> {
    let alloc = rt.alloc();
    let idle = fetch(alloc, "")?;
    let most = script_text(alloc, times(alloc, idle.as_str(), 64)?.as_str(), "")?;
    assert_eq!(rt; script(alloc, most.as_str())?.actors.len(), 64);
    let more = script_text(alloc, times(alloc, idle.as_str(), 65)?.as_str(), "")?;
    let why = refused(alloc, more.as_str())?;
    assert_eq!(rt; why.name, Refusal::TooMany);
    assert_eq!(rt; why.path.as_str(), "/actors");
    Ok(())
}

#[test]
fn the_steps_with_the_one_too_many_are_named(rt: HostRuntime) -> Result<(), Fail> {
    let alloc = rt.alloc();
    let first = posts(alloc, 19_999)?;
    let second = posts(alloc, 1)?;
    let most = format!(in alloc; "{first},{second}")?;
    let text = script_text(alloc, most.as_str(), "")?;
    assert_eq!(rt; script(alloc, text.as_str())?.actors.len(), 2);
    let more = format!(in alloc; "{most},{second},{second}")?;
    let text = script_text(alloc, more.as_str(), ",\"start\":-1")?;
    let why = refused(alloc, text.as_str())?;
    assert_eq!(rt; why.name, Refusal::TooMany);
    assert_eq!(rt; why.path.as_str(), "/actors/2/steps");
    Ok(())
}
