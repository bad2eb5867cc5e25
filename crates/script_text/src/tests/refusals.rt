//! Why inputs are refused.

use super::{fetch, refused, renderer, script_text};
use crate::refused::Refusal;
use std::alloc::Global;
use std::process::Abort;
use std::test::Fail;

/// Says that each text is refused so.
fn all_are_refused(
    rt: &impl Abort,
    alloc: Global,
    inputs: &[(&str, Refusal, &str)],
) -> Result<(), Fail> {
    for (text, name, path) in inputs {
        let why = refused(alloc, text)?;
        assert_eq!(rt; why.name, *name, "{text}");
        assert_eq!(rt; why.path.as_str(), *path, "{text}");
    }
    Ok(())
}

#[test]
fn what_is_no_script_is_refused_at_its_path(rt: HostRuntime) -> Result<(), Fail> {
    let inputs = [
        ("", Refusal::NotJson, ""),
        ("{\"actors\":[],}", Refusal::NotJson, ""),
        ("{\"actors\":[],\"start\":1e400}", Refusal::NotJson, ""),
        ("[]", Refusal::Shape, ""),
        ("{\"actors\":[],\"a~b/c\":0}", Refusal::Shape, "/a~0b~1c"),
        ("{\"actors\":[],\"limit\":0}", Refusal::Shape, "/limit"),
        (
            "{\"actors\":[],\"limit\":1000001}",
            Refusal::Shape,
            "/limit",
        ),
        ("{\"actors\":[],\"start\":-0}", Refusal::Shape, "/start"),
        ("{\"actors\":[],\"start\":1.5}", Refusal::Shape, "/start"),
        (
            "{\"actors\":[],\"start\":18446744073709551616}",
            Refusal::Shape,
            "/start",
        ),
        (
            "{\"actors\":[{\"kind\":\"cache\"}]}",
            Refusal::Shape,
            "/actors/0/kind",
        ),
        ("{\"actors\":[],\"start\":-1}", Refusal::BadMoment, "/start"),
        (
            "{\"actors\":[],\"start\":253402300800000}",
            Refusal::BadMoment,
            "/start",
        ),
        (
            "{\"actors\":[],\"start\":18446744073709551615}",
            Refusal::BadMoment,
            "/start",
        ),
        (
            "{\"actors\":[],\"suffixes\":\"a..b\"}",
            Refusal::BadSuffixes,
            "/suffixes",
        ),
    ];
    all_are_refused(&rt, rt.alloc(), &inputs)
}

/// Says that scripts of one actor with these steps are refused so.
fn steps_are_refused(
    rt: &impl Abort,
    alloc: Global,
    inputs: &[(&str, Refusal, &str)],
) -> Result<(), Fail> {
    for (steps, name, path) in inputs {
        let text = script_text(alloc, fetch(alloc, steps)?.as_str(), "")?;
        let why = refused(alloc, text.as_str())?;
        assert_eq!(rt; why.name, *name, "{steps}");
        assert_eq!(rt; why.path.as_str(), *path, "{steps}");
    }
    Ok(())
}

#[test]
fn the_first_cause_of_a_fetch_is_named(rt: HostRuntime) -> Result<(), Fail> {
    let inputs = [
        (
            "{\"op\":\"post\",\"now\":1},{\"op\":\"write\",\"line\":\"a\"}",
            Refusal::Shape,
            "/actors/0/steps/1/op",
        ),
        (
            "{\"op\":\"get\",\"now\":-1,\"url\":\"a\"},{\"op\":\"set\",\"now\":1,\"url\":\"b\"}",
            Refusal::Shape,
            "/actors/0/steps/1",
        ),
        (
            "{\"op\":\"get\",\"now\":1,\"url\":\"a\"},{\"op\":\"post\",\"now\":-1}",
            Refusal::BadMoment,
            "/actors/0/steps/1/now",
        ),
        (
            "{\"op\":\"hear\",\"now\":1,\"actor\":0,\"n\":1},{\"op\":\"get\",\"now\":1,\"url\":\"a\"}",
            Refusal::BadPlace,
            "/actors/0/steps/1/url",
        ),
        (
            "{\"op\":\"post\",\"now\":1},{\"op\":\"hear\",\"now\":1,\"actor\":0,\"n\":2}",
            Refusal::Deadlock,
            "/actors/0/steps/1",
        ),
    ];
    steps_are_refused(&rt, rt.alloc(), &inputs)
}

#[test]
fn the_first_url_of_the_walk_that_is_no_place_is_named(rt: HostRuntime) -> Result<(), Fail> {
    let inputs = [
        (
            "{\"op\":\"get\",\"now\":1,\"url\":\"ws://a.test\"},{\"op\":\"get\",\"now\":1,\"url\":\"ftp://a.test/\"},{\"op\":\"get\",\"now\":1,\"url\":\"a\"}",
            Refusal::BadPlace,
            "/actors/0/steps/1/url",
        ),
        (
            "{\"op\":\"get\",\"now\":1,\"url\":\"a\",\"site\":\"b\",\"initiator\":\"c\"}",
            Refusal::BadPlace,
            "/actors/0/steps/0/initiator",
        ),
        (
            "{\"op\":\"get\",\"now\":1,\"url\":\"a\",\"site\":\"b\",\"initiator\":\"http://c.test\"}",
            Refusal::BadPlace,
            "/actors/0/steps/0/site",
        ),
        (
            "{\"op\":\"get\",\"now\":1,\"url\":\"a\"},{\"op\":\"get\",\"now\":1,\"url\":\"http://b.test\",\"initiator\":\"c\"}",
            Refusal::BadPlace,
            "/actors/0/steps/0/url",
        ),
        (
            "{\"op\":\"set\",\"now\":1,\"url\":\"http://.a.test\",\"line\":\"\"}",
            Refusal::BadPlace,
            "/actors/0/steps/0/url",
        ),
        (
            "{\"op\":\"listen\",\"now\":1,\"url\":\"a\"}",
            Refusal::BadPlace,
            "/actors/0/steps/0/url",
        ),
    ];
    steps_are_refused(&rt, rt.alloc(), &inputs)
}

#[test]
fn the_first_url_of_a_renderer_is_that_of_its_document(rt: HostRuntime) -> Result<(), Fail> {
    let alloc = rt.alloc();
    let read = renderer(alloc, "{\"op\":\"read\",\"now\":1,\"url\":\"c\"}")?;
    let write = renderer(
        alloc,
        "{\"op\":\"write\",\"line\":\"\",\"now\":1,\"url\":\"c\"}",
    )?;
    let inputs = [
        (
            "{\"kind\":\"renderer\",\"document\":\"a\",\"site\":\"b\",\"steps\":[]}",
            "/actors/0/document",
        ),
        (
            "{\"kind\":\"renderer\",\"document\":\"http://a.test\",\"site\":\"b\",\"steps\":[{\"op\":\"read\",\"now\":1,\"url\":\"c\"}]}",
            "/actors/0/site",
        ),
        (read.as_str(), "/actors/0/steps/0/url"),
        (write.as_str(), "/actors/0/steps/0/url"),
    ];
    for (actor, path) in inputs {
        let text = script_text(alloc, actor, "")?;
        let why = refused(alloc, text.as_str())?;
        assert_eq!(rt; why.name, Refusal::BadPlace, "{actor}");
        assert_eq!(rt; why.path.as_str(), path, "{actor}");
    }
    Ok(())
}
