//! Each reply as a text.

use super::{COOKIE, cookie, is_reply};
use jar_types::{Cause, Change, Changes, Cookies, Reply};
use jar_values::{NoMemory, Text};
use std::alloc::Global;
use std::test::Fail;

#[test]
fn replies_that_name_nothing_are_a_word(rt: HostRuntime) -> Result<(), Fail> {
    let alloc = rt.alloc();
    assert!(rt; is_reply(alloc, Reply::Stored, &["\"stored\""])?);
    assert!(rt; is_reply(alloc, Reply::Replaced, &["\"replaced\""])?);
    assert!(rt; is_reply(alloc, Reply::Removed, &["\"removed\""])?);
    assert!(rt; is_reply(alloc, Reply::NothingThere, &["\"nothing_there\""])?);
    assert!(rt; is_reply(alloc, Reply::OverwriteSecure, &["\"overwrite_secure\""])?);
    assert!(rt;
        is_reply(
            alloc,
            Reply::OverwriteHttpOnly,
            &["\"overwrite_http_only\""]
        )?
    );
    assert!(rt; is_reply(alloc, Reply::NoListener, &["\"no_listener\""])?);
    assert!(rt; is_reply(alloc, Reply::Heard, &["\"heard\""])?);
    assert!(rt; is_reply(alloc, Reply::StoreFault, &["\"store_fault\""])?);
    Ok(())
}

#[test]
fn replies_of_a_flag_or_a_number_have_it(rt: HostRuntime) -> Result<(), Fail> {
    let alloc = rt.alloc();
    assert!(rt; is_reply(alloc, Reply::Flag(true), &["true"])?);
    assert!(rt; is_reply(alloc, Reply::Flag(false), &["false"])?);
    assert!(rt; is_reply(alloc, Reply::Cell(None), &["{\"cell\":null}"])?);
    assert!(rt; is_reply(alloc, Reply::Cell(Some(4096)), &["{\"cell\":4096}"])?);
    assert!(rt; is_reply(alloc, Reply::Count(180), &["{\"count\":180}"])?);
    assert!(rt; is_reply(alloc, Reply::Listener(2), &["{\"listener\":2}"])?);
    assert!(rt; is_reply(alloc, Reply::Posted(3), &["{\"post\":3}"])?);
    Ok(())
}

/// The reply to a get of a script, with the text `n=v`.
fn script(alloc: Global, version: Option<u64>, until: u64) -> Result<Reply, NoMemory> {
    Ok(Reply::Script {
        text: Text::of(alloc, "n=v")?,
        version,
        until,
    })
}

/// The reply to a get of HTTP, with the cookie twice.
fn twice(alloc: Global) -> Result<Reply, Fail> {
    let mut cookies = Cookies::new(alloc);
    cookies.push(cookie(alloc)?)?;
    cookies.push(cookie(alloc)?)?;
    Ok(Reply::Cookies(cookies))
}

#[test]
fn replies_to_gets_have_the_cookies_or_their_text(rt: HostRuntime) -> Result<(), Fail> {
    let alloc = rt.alloc();
    let none = Reply::Cookies(Cookies::new(alloc));
    assert!(rt; is_reply(alloc, none, &["{\"cookies\":[]}"])?);
    let two = ["{\"cookies\":[", COOKIE, ",", COOKIE, "]}"];
    assert!(rt; is_reply(alloc, twice(alloc)?, &two)?);
    let unbound = "{\"text\":\"n=v\",\"until\":61000,\"version\":null}";
    assert!(rt; is_reply(alloc, script(alloc, None, 61_000)?, &[unbound])?);
    let bound = "{\"text\":\"n=v\",\"until\":253402300800000,\"version\":0}";
    assert!(rt;
        is_reply(
            alloc,
            script(alloc, Some(0), 253_402_300_800_000)?,
            &[bound]
        )?
    );
    Ok(())
}

/// Whether the change of the cookie for this cause is written with this word.
fn is_cause(alloc: Global, cause: Cause, word: &str) -> Result<bool, Fail> {
    let mut changes = Changes::new(alloc);
    changes.push(Change {
        cause,
        cookie: cookie(alloc)?,
    })?;
    let parts = [
        "{\"changes\":[{\"cause\":\"",
        word,
        "\",\"cookie\":",
        COOKIE,
        "}]}",
    ];
    is_reply(alloc, Reply::Changes(changes), &parts)
}

#[test]
fn changes_have_their_cause_and_their_cookie(rt: HostRuntime) -> Result<(), Fail> {
    let alloc = rt.alloc();
    let none = Reply::Changes(Changes::new(alloc));
    assert!(rt; is_reply(alloc, none, &["{\"changes\":[]}"])?);
    assert!(rt; is_cause(alloc, Cause::Inserted, "inserted")?);
    assert!(rt; is_cause(alloc, Cause::Explicit, "explicit")?);
    assert!(rt; is_cause(alloc, Cause::Overwrite, "overwrite")?);
    assert!(rt; is_cause(alloc, Cause::Expired, "expired")?);
    assert!(rt; is_cause(alloc, Cause::Evicted, "evicted")?);
    assert!(rt; is_cause(alloc, Cause::ExpiredOverwrite, "expired_overwrite")?);
    Ok(())
}
