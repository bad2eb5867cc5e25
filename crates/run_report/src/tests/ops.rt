//! Each op as a text.

use super::{COOKIE, REQUEST, cookie, is_op, request};
use jar_types::{Context, CookieId, Op, Scope};
use jar_values::{NoMemory, Text};
use std::alloc::Global;
use std::test::Fail;

/// The op that deletes the cookie of an id.
fn delete(alloc: Global) -> Result<Op, NoMemory> {
    Ok(Op::Delete {
        key: Text::of(alloc, "h.test")?,
        id: CookieId {
            host: Text::of(alloc, ".h.test")?,
            name: Text::of(alloc, "n")?,
            path: Text::of(alloc, "/p")?,
        },
    })
}

/// The op that sets the cookie.
fn set(alloc: Global, script: bool, secure: bool) -> Result<Op, Fail> {
    Ok(Op::Set {
        cookie: cookie(alloc)?,
        script,
        secure,
    })
}

/// The op that gets the request's cookies.
fn get(alloc: Global) -> Result<Op, NoMemory> {
    Ok(Op::Get(request(alloc, Context::LaxUnsafe)?))
}

#[test]
fn ops_on_cookies_have_their_cookie_their_request_or_their_id(rt: HostRuntime) -> Result<(), Fail> {
    let alloc = rt.alloc();
    let by_script = [
        "{\"cookie\":",
        COOKIE,
        ",\"kind\":\"set\",\"script\":true,\"secure\":false}",
    ];
    assert!(rt; is_op(alloc, set(alloc, true, false)?, &by_script)?);
    let secure = [
        "{\"cookie\":",
        COOKIE,
        ",\"kind\":\"set\",\"script\":false,\"secure\":true}",
    ];
    assert!(rt; is_op(alloc, set(alloc, false, true)?, &secure)?);
    assert!(rt;
        is_op(
            alloc,
            get(alloc)?,
            &["{\"kind\":\"get\",\"request\":", REQUEST, "}"]
        )?
    );
    let deleted =
        "{\"host\":\".h.test\",\"key\":\"h.test\",\"kind\":\"delete\",\"name\":\"n\",\"path\":\"/p\"}";
    assert!(rt; is_op(alloc, delete(alloc)?, &[deleted])?);
    Ok(())
}

/// The op that registers a listener of the request's changes.
fn listen(alloc: Global) -> Result<Op, NoMemory> {
    Ok(Op::Listen(Scope::Seen(request(alloc, Context::LaxUnsafe)?)))
}

/// The op that registers a listener of the changes of the name `n` among these.
fn listen_by_name(alloc: Global) -> Result<Op, NoMemory> {
    Ok(Op::Listen(Scope::Named(request(alloc, Context::LaxUnsafe)?, Text::of(alloc, "n")?)))
}

#[test]
fn listens_have_a_name_and_a_request_or_null(rt: HostRuntime) -> Result<(), Fail> {
    let alloc = rt.alloc();
    let all = "{\"kind\":\"listen\",\"name\":null,\"request\":null}";
    assert!(rt; is_op(alloc, Op::Listen(Scope::All), &[all])?);
    let seen = [
        "{\"kind\":\"listen\",\"name\":null,\"request\":",
        REQUEST,
        "}",
    ];
    assert!(rt; is_op(alloc, listen(alloc)?, &seen)?);
    let named = [
        "{\"kind\":\"listen\",\"name\":\"n\",\"request\":",
        REQUEST,
        "}",
    ];
    assert!(rt; is_op(alloc, listen_by_name(alloc)?, &named)?);
    Ok(())
}

/// The op that binds the key.
fn bind(alloc: Global) -> Result<Op, NoMemory> {
    Ok(Op::Bind(Text::of(alloc, "h.test")?))
}

#[test]
fn the_other_ops_have_a_key_or_numbers(rt: HostRuntime) -> Result<(), Fail> {
    let alloc = rt.alloc();
    assert!(rt;
        is_op(
            alloc,
            bind(alloc)?,
            &["{\"key\":\"h.test\",\"kind\":\"bind\"}"]
        )?
    );
    assert!(rt;
        is_op(
            alloc,
            Op::Changes(1),
            &["{\"kind\":\"changes\",\"listener\":1}"]
        )?
    );
    let unlisten = "{\"kind\":\"unlisten\",\"listener\":18446744073709551615}";
    assert!(rt; is_op(alloc, Op::Unlisten(18_446_744_073_709_551_615), &[unlisten])?);
    assert!(rt; is_op(alloc, Op::All, &["{\"kind\":\"all\"}"])?);
    assert!(rt; is_op(alloc, Op::Clear, &["{\"kind\":\"clear\"}"])?);
    assert!(rt; is_op(alloc, Op::Post, &["{\"kind\":\"post\"}"])?);
    let hear = "{\"actor\":63,\"kind\":\"hear\",\"n\":2}";
    assert!(rt; is_op(alloc, Op::Hear { actor: 63, n: 2 }, &[hear])?);
    Ok(())
}
