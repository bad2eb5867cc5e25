//! What the steps of a script are.

use super::{fetch, renderer, script, script_text};
use crate::step::{Step, What};
use site_match::{FetchAsk, Place};
use std::alloc::Global;
use std::test::Fail;

/// A place in words.
fn place(alloc: Global, place: &Place) -> Result<String, Fail> {
    let host = place.host.as_str();
    let path = place.path.as_str();
    Ok(format!(in alloc; "{host}:{}{path}", place.port)?)
}

/// A place that may be absent, in words.
fn place_if(alloc: Global, url: &Option<Place>) -> Result<String, Fail> {
    match url {
        Some(url) => place(alloc, url),
        None => Ok(format!(in alloc; "none")?),
    }
}

/// What a step says of itself, in words.
fn ask(alloc: Global, ask: &FetchAsk) -> Result<String, Fail> {
    let url = place(alloc, &ask.place)?;
    let site = place_if(alloc, &ask.site)?;
    let initiator = place_if(alloc, &ask.initiator)?;
    Ok(format!(in alloc;
        "{url} of {site} by {initiator}, {} {}",
        ask.safe_method, ask.navigation
    )?)
}

/// A listen in words.
fn listen(alloc: Global, what: &What) -> Result<String, Fail> {
    match what {
        What::Listen {
            ask: Some(said),
            name: Some(name),
        } => {
            let said = ask(alloc, said)?;
            Ok(format!(in alloc; "listen {said} for {}", name.as_str())?)
        }
        What::Listen {
            ask: None,
            name: Some(name),
        } => Ok(format!(in alloc; "listen for {}", name.as_str())?),
        _ => Ok(format!(in alloc; "listen")?),
    }
}

/// What a step does, in words.
fn words(alloc: Global, what: &What) -> Result<String, Fail> {
    match what {
        What::Set { ask: said, line } => {
            let said = ask(alloc, said)?;
            Ok(format!(in alloc; "set {said} {}", line.as_str())?)
        }
        What::Get { ask: said } => {
            let said = ask(alloc, said)?;
            Ok(format!(in alloc; "get {said}")?)
        }
        What::Delete { host, name, path } => Ok(format!(in alloc;
            "delete {} {} {}",
            host.as_str(),
            name.as_str(),
            path.as_str()
        )?),
        What::All => Ok(format!(in alloc; "all")?),
        What::Clear => Ok(format!(in alloc; "clear")?),
        What::Listen { .. } => listen(alloc, what),
        What::Changes { listener } => Ok(format!(in alloc; "changes {listener}")?),
        What::Unlisten { listener } => Ok(format!(in alloc; "unlisten {listener}")?),
        What::Post => Ok(format!(in alloc; "post")?),
        What::Hear { actor, n } => Ok(format!(in alloc; "hear {actor} {n}")?),
        What::Read { url } => {
            let url = place_if(alloc, url)?;
            Ok(format!(in alloc; "read {url}")?)
        }
        What::Write { line, url } => {
            let url = place_if(alloc, url)?;
            Ok(format!(in alloc; "write {} at {url}", line.as_str())?)
        }
    }
}

/// The steps of the first actor of a script, in words.
fn steps_of(alloc: Global, text: &str) -> Result<String, Fail> {
    let script = script(alloc, text)?;
    let mut all = String::new(alloc);
    match script.actors.get(0) {
        Some(actor) => add_steps(alloc, &mut all, actor.steps.as_slice())?,
        None => {}
    }
    Ok(all)
}

/// Adds steps in words.
fn add_steps(alloc: Global, all: &mut String, steps: &[Step]) -> Result<(), Fail> {
    for step in steps {
        let said = words(alloc, &step.what)?;
        all.push_str(said.as_str())?;
        all.push_str("; ")?;
    }
    Ok(())
}

#[test]
fn a_fetch_does_what_its_steps_say(rt: HostRuntime) -> Result<(), Fail> {
    let alloc = rt.alloc();
    let steps = [
        (
            "{\"op\":\"set\",\"now\":1,\"url\":\"http://a.test/x?y#z\",\"line\":\"a=1\"}",
            "set a.test:80/x of a.test:80/x by none, true false a=1; ",
        ),
        (
            "{\"op\":\"get\",\"now\":1,\"url\":\"wss://a.test\",\"site\":null,\"initiator\":\"http://b.test\",\"method\":\"get\",\"navigation\":true}",
            "get a.test:443/ of none by b.test:80/, false true; ",
        ),
        (
            "{\"op\":\"get\",\"now\":1,\"url\":\"https://a.test\",\"site\":\"https://c.test:8/\",\"method\":\"HEAD\"}",
            "get a.test:443/ of c.test:8/ by none, true false; ",
        ),
        (
            "{\"op\":\"delete\",\"now\":1,\"host\":\".h\",\"name\":\"\",\"path\":\"/p\"}",
            "delete .h  /p; ",
        ),
        (
            "{\"op\":\"all\",\"now\":1},{\"op\":\"clear\",\"now\":1},{\"op\":\"post\",\"now\":1},{\"op\":\"hear\",\"now\":1,\"actor\":0,\"n\":1}",
            "all; clear; post; hear 0 1; ",
        ),
        (
            "{\"op\":\"listen\",\"now\":1},{\"op\":\"listen\",\"now\":1,\"url\":\"ws://a.test\",\"name\":\"n\"},{\"op\":\"changes\",\"now\":1,\"listener\":2},{\"op\":\"unlisten\",\"now\":1,\"listener\":1}",
            "listen; listen a.test:80/ of a.test:80/ by none, true false for n; changes 2; unlisten 1; ",
        ),
    ];
    for (step, said) in steps {
        let text = script_text(alloc, fetch(alloc, step)?.as_str(), "")?;
        assert_eq!(rt; steps_of(alloc, text.as_str())?.as_str(), said, "{step}");
    }
    Ok(())
}

#[test]
fn a_renderer_does_what_its_steps_say(rt: HostRuntime) -> Result<(), Fail> {
    let alloc = rt.alloc();
    let steps = [
        (
            "{\"op\":\"read\",\"now\":1},{\"op\":\"read\",\"now\":1,\"url\":\"http://b.test\"}",
            "read none; read b.test:80/; ",
        ),
        (
            "{\"op\":\"write\",\"now\":1,\"line\":\"a\"},{\"op\":\"write\",\"now\":1,\"line\":\"b\",\"url\":\"http://b.test\"}",
            "write a at none; write b at b.test:80/; ",
        ),
        (
            "{\"op\":\"listen\",\"now\":1},{\"op\":\"listen\",\"now\":1,\"name\":\"n\"}",
            "listen; listen for n; ",
        ),
    ];
    for (step, said) in steps {
        let text = script_text(alloc, renderer(alloc, step)?.as_str(), "")?;
        assert_eq!(rt; steps_of(alloc, text.as_str())?.as_str(), said, "{step}");
    }
    Ok(())
}

/// The view of the first actor, and the key of its document, in words.
fn view_of(alloc: Global, text: &str) -> Result<String, Fail> {
    let script = script(alloc, text)?;
    let Some(actor) = script.actors.get(0) else {
        return Err("no actor".into());
    };
    let Some(sees) = &actor.view else {
        return Ok(format!(in alloc; "a fetch")?);
    };
    let document = place(alloc, &sees.0)?;
    let site = place_if(alloc, &sees.1)?;
    Ok(format!(in alloc; "{document} of {site}, {}", sees.0.key.as_str())?)
}

#[test]
fn a_renderer_has_a_view_and_keys_are_by_the_suffix_list(rt: HostRuntime) -> Result<(), Fail> {
    let alloc = rt.alloc();
    let scripts = [
        ("{\"kind\":\"fetch\",\"steps\":[]}", "", "a fetch"),
        (
            "{\"kind\":\"renderer\",\"document\":\"https://a.b.test/d\",\"site\":null,\"steps\":[]}",
            "",
            "a.b.test:443/d of none, b.test",
        ),
        (
            "{\"kind\":\"renderer\",\"document\":\"https://a.b.test/d\",\"site\":\"http://c.test\",\"steps\":[]}",
            ",\"suffixes\":\"b.test\"",
            "a.b.test:443/d of c.test:80/, a.b.test",
        ),
    ];
    for (actor, rest, seen) in scripts {
        let text = script_text(alloc, actor, rest)?;
        assert_eq!(rt;
            view_of(alloc, text.as_str())?.as_str(),
            seen,
            "{actor}{rest}"
        );
    }
    Ok(())
}

#[test]
fn a_script_opens_at_0_for_a_million_entries_unless_it_says_so(
    rt: HostRuntime,
) -> Result<(), Fail> {
    let alloc = rt.alloc();
    let scripts = [
        ("", 0, 1_000_000),
        (
            ",\"limit\":1,\"start\":253402300799999",
            253_402_300_799_999,
            1,
        ),
        (",\"limit\":1000000,\"start\":0", 0, 1_000_000),
    ];
    for (rest, start, limit) in scripts {
        let text = script_text(alloc, "", rest)?;
        let script = script(alloc, text.as_str())?;
        assert_eq!(rt; script.start.ms(), start, "{rest}");
        assert_eq!(rt; script.limit, limit, "{rest}");
    }
    Ok(())
}
