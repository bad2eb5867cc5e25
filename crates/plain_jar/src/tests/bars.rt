//! What bars a Set: a Secure cookie an insecure source, an HttpOnly one a script. The 6265bis draft, section 5.7.

use super::rows::{Row, SET, set};
use super::runs::gives;
use std::test::Fail;

#[test]
fn a_script_touches_no_http_only_cookie(rt: HostRuntime) -> Result<(), Fail> {
    let guarded = Row {
        http_only: true,
        ..SET
    };
    let by_script = Row {
        script: true,
        now: 5,
        ..SET
    };
    let elsewhere = Row {
        path: "/docs",
        ..by_script
    };
    let rows = [guarded, by_script, elsewhere, set("a", "/", 7), by_script];
    let due = "stored;http only;stored;replaced;replaced;";
    assert!(rt; gives(rt.alloc(), &rows, due)?);
    Ok(())
}

/// A Set of `s` on a path, of a host, over a connection that isn't secure.
fn insecure(host: &'static str, path: &'static str) -> Row {
    Row {
        host,
        secure: false,
        ..set("s", path, 5)
    }
}

/// A Secure cookie `s` on a path, of a host.
fn shield(host: &'static str, path: &'static str) -> Row {
    Row {
        host,
        is_secure: true,
        ..set("s", path, 0)
    }
}

#[test]
fn an_insecure_source_touches_no_secure_cookie(rt: HostRuntime) -> Result<(), Fail> {
    let other_key = Row {
        key: "test",
        ..insecure("h.test", "/login")
    };
    let other_name = Row {
        name: "t",
        ..insecure("h.test", "/login")
    };
    let rows = [
        shield("h.test", "/login"),
        insecure("h.test", "/login"),
        insecure("h.test", "/login/x"),
        insecure("h.test", "/"),
        insecure("h.test", "/log"),
        other_key,
        other_name,
        shield("h.test", "/login"),
    ];
    let due = "stored;secure;secure;stored;stored;replaced;stored;replaced;";
    assert!(rt; gives(rt.alloc(), &rows, due)?);
    Ok(())
}

#[test]
fn a_secure_cookie_shields_names_above_and_below_its_domain(rt: HostRuntime) -> Result<(), Fail> {
    let rows = [
        shield("www.h.test", "/"),
        insecure(".h.test", "/a"),
        insecure("www.h.test", "/a"),
        insecure(".www.h.test", "/a"),
        insecure("a.www.h.test", "/a"),
        insecure("ww.h.test", "/a"),
    ];
    let due = "stored;secure;secure;secure;secure;stored;";
    assert!(rt; gives(rt.alloc(), &rows, due)?);
    Ok(())
}
