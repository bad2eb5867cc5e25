//! Places, matches and contexts as tables. The values are from the URL Standard, RFC 6265 and this
//! jar's own rules.
//!
//! A value that owns texts is made, looked at and dropped by a call in a small function: elsewhere
//! the proof has a case for each of its forms.

use crate::fetch::{FetchAsk, context};
use crate::host::domain_match;
use crate::matching::matches;
use crate::path::{default_path, path_match};
use crate::place::{Place, PlaceRefusal};
use crate::scheme::Scheme;
use jar_types::{Context, Cookie, Request};
use jar_values::{Moment, Priority, SameSite, Text};
use public_suffix::Suffixes;
use std::alloc::Global;
use std::process::Abort;

/// The place of a text of less than 1,000 bytes by the rules `test` and `co.uk`.
fn place(rt: &impl Abort, alloc: Global, text: &str) -> Result<Place, PlaceRefusal> {
    assert!(rt; text.len() < 1000);
    let suffixes = Suffixes::read(alloc, "test\nco.uk").expect(rt, "a list");
    let place = Place::read(alloc, &suffixes, text);
    drop(suffixes);
    place
}

/// Scheme, port, host, path and key of a place.
fn parts(rt: &impl Abort, alloc: Global, place: &Place) -> String {
    let (scheme, port) = (place.scheme, place.port);
    let (host, path, key) = (place.host.as_str(), place.path.as_str(), place.key.as_str());
    format!(in alloc; "{scheme:?} {port} {host} {path} {key}").expect(rt, "memory for a text")
}

/// The copy of a text's place, which outlives the place, has these parts.
fn reads(rt: &impl Abort, alloc: Global, text: &str, wanted: &str) {
    let place = place(rt, alloc, text).expect(rt, "a place");
    let copy = place.copy(alloc).expect(rt, "memory for a copy");
    drop(place);
    let found = parts(rt, alloc, &copy);
    drop(copy);
    assert_eq!(rt; found.as_str(), wanted, "{text}");
}

#[test]
fn a_place_is_what_its_url_says(rt: HostRuntime) {
    for (text, wanted) in [
        (
            "http://www.H.test/a/b?q#f",
            "Http 80 www.h.test /a/b h.test",
        ),
        ("https://u:p@h.test:8443/", "Https 8443 h.test / h.test"),
        ("https://h.test:443", "Https 443 h.test / h.test"),
        ("ws://0x7f.1/", "Ws 80 127.0.0.1 / 127.0.0.1"),
        ("http://1.2.3/", "Http 80 1.2.0.3 / 1.2.0.3"),
        (
            "wss://[2001:DB8::1]/%7e a",
            "Wss 443 [2001:db8::1] /%7e%20a [2001:db8::1]",
        ),
        ("http://a.b./", "Http 80 a.b. / a.b."),
        (
            "http://w.b\u{fc}cher.test/",
            "Http 80 w.xn--bcher-kva.test / xn--bcher-kva.test",
        ),
        ("http://w.a.co.uk/", "Http 80 w.a.co.uk / a.co.uk"),
    ] {
        reads(&rt, rt.alloc(), text, wanted);
    }
}

#[test]
fn a_text_is_refused_for_its_first_cause(rt: HostRuntime) {
    for (text, refusal) in [
        ("h.test/", PlaceRefusal::BadUrl),
        ("http://", PlaceRefusal::BadUrl),
        ("http://h test/", PlaceRefusal::BadUrl),
        ("http://h.test:99999/", PlaceRefusal::BadUrl),
        ("ftp://h.test/", PlaceRefusal::Scheme),
        ("ftp://.h.test/", PlaceRefusal::Scheme),
        ("about:blank", PlaceRefusal::Scheme),
        ("http://.h.test/", PlaceRefusal::DotHost),
        ("http://./", PlaceRefusal::DotHost),
    ] {
        let found = place(&rt, rt.alloc(), text).err();
        assert_eq!(rt; found, Some(refusal), "{text}");
    }
}

#[test]
fn hosts_match_their_domains(rt: HostRuntime) {
    for (host, domain, wanted) in [
        ("h.test", "h.test", true),
        ("www.h.test", "h.test", true),
        ("xh.test", "h.test", false),
        ("h.test", "www.h.test", false),
        ("10.0.0.1", "10.0.0.1", true),
        ("10.0.0.1", "0.0.1", false),
    ] {
        assert_eq!(rt; domain_match(host, domain), wanted, "{host} and {domain}");
    }
}

#[test]
fn paths_match_up_to_a_slash(rt: HostRuntime) {
    for (request, cookie, wanted) in [
        ("/a/b", "/a/b", true),
        ("/a/b", "/a", true),
        ("/a/b", "/a/", true),
        ("/ab", "/a", false),
        ("/", "/a", false),
        ("/a", "/a/", false),
    ] {
        assert_eq!(rt; path_match(request, cookie), wanted, "{request} {cookie}");
    }
}

#[test]
fn a_default_path_ends_before_the_last_slash(rt: HostRuntime) {
    for (path, wanted) in [
        ("", "/"),
        ("a/b", "/"),
        ("/a", "/"),
        ("//", "/"),
        ("/a/b", "/a"),
        ("/a;b/c/", "/a;b/c"),
    ] {
        assert_eq!(rt; default_path(path), wanted, "{path}");
    }
}

/// A text.
fn text(rt: &impl Abort, alloc: Global, source: &str) -> Text {
    Text::of(alloc, source).expect(rt, "memory for a text")
}

/// A cookie of the key `h.test`, made at 5, for a host and a path, that is Secure and HttpOnly.
fn cookie(rt: &impl Abort, alloc: Global, host: &str, path: &str, same_site: SameSite) -> Cookie {
    let made = Moment::of(5).expect(rt, "a moment");
    Cookie {
        key: text(rt, alloc, "h.test"),
        host: text(rt, alloc, host),
        name: text(rt, alloc, "a"),
        path: text(rt, alloc, path),
        value: text(rt, alloc, "1"),
        creation: made,
        access: made,
        expiry: None,
        secure: true,
        http_only: true,
        same_site,
        priority: Priority::Medium,
    }
}

/// The request of `https://www.h.test/a/b` under a key, in a context.
fn request(rt: &impl Abort, alloc: Global, key: &str, secure: bool, context: Context) -> Request {
    Request {
        key: text(rt, alloc, key),
        host: text(rt, alloc, "www.h.test"),
        path: text(rt, alloc, "/a/b"),
        secure,
        script: false,
        context,
    }
}

/// Whether a request gets a cookie at a moment in milliseconds. Both are dropped.
fn gets(rt: &impl Abort, asked: Request, kept: Cookie, ms: u64) -> bool {
    let found = matches(&asked, &kept, Moment::of(ms).expect(rt, "a moment"));
    drop(asked);
    drop(kept);
    found
}

#[test]
fn a_request_gets_the_cookies_of_its_key_host_and_path(rt: HostRuntime) {
    for (key, secure, host, path, wanted) in [
        ("h.test", true, ".h.test", "/a", true),
        ("h.test", true, "www.h.test", "/", true),
        ("h.test", true, "h.test", "/", false),
        ("h.test", true, ".www.h.test", "/a/b", true),
        ("h.test", true, ".h.test", "/b", false),
        ("h.test", false, ".h.test", "/a", false),
        ("s3.h.test", true, ".h.test", "/a", false),
    ] {
        let asked = request(&rt, rt.alloc(), key, secure, Context::Cross);
        let kept = cookie(&rt, rt.alloc(), host, path, SameSite::NoLimit);
        assert_eq!(rt; gets(&rt, asked, kept, 9), wanted, "{key} {host} {path}");
    }
}

/// Whether a request, of a script or not, gets a cookie that is HttpOnly or not.
fn script_gets(rt: &impl Abort, alloc: Global, script: bool, http_only: bool) -> bool {
    let mut asked = request(rt, alloc, "h.test", true, Context::Strict);
    let mut kept = cookie(rt, alloc, ".h.test", "/", SameSite::Strict);
    asked.script = script;
    kept.http_only = http_only;
    gets(rt, asked, kept, 9)
}

#[test]
fn a_script_gets_no_cookie_that_is_http_only(rt: HostRuntime) {
    assert!(rt; script_gets(&rt, rt.alloc(), false, true), "no script");
    assert!(rt; !script_gets(&rt, rt.alloc(), true, true), "a script");
    assert!(rt;
        script_gets(&rt, rt.alloc(), true, false),
        "a script and another cookie"
    );
}

#[test]
fn same_site_goes_by_the_context(rt: HostRuntime) {
    for (same_site, context, ms, wanted) in [
        (SameSite::NoLimit, Context::Cross, 9, true),
        (SameSite::Strict, Context::Strict, 9, true),
        (SameSite::Strict, Context::Lax, 9, false),
        (SameSite::Lax, Context::Lax, 9, true),
        (SameSite::Lax, Context::LaxUnsafe, 9, false),
        (SameSite::Unspecified, Context::LaxUnsafe, 120_005, true),
        (SameSite::Unspecified, Context::LaxUnsafe, 120_006, false),
    ] {
        let asked = request(&rt, rt.alloc(), "h.test", true, context);
        let kept = cookie(&rt, rt.alloc(), ".h.test", "/", same_site);
        assert_eq!(rt; gets(&rt, asked, kept, ms), wanted, "{ms}");
    }
}

/// The context of a fetch on `https://h.test/` with another place as its site for cookies and its
/// initiator.
fn context_from(
    rt: &impl Abort,
    alloc: Global,
    from: &str,
    navigation: bool,
    safe_method: bool,
) -> Context {
    let ask = FetchAsk {
        place: place(rt, alloc, "https://h.test/").expect(rt, "a place"),
        site: place(rt, alloc, from).ok(),
        initiator: place(rt, alloc, from).ok(),
        safe_method,
        navigation,
    };
    let found = context(&ask);
    drop(ask);
    found
}

#[test]
fn a_context_goes_by_navigation_site_and_method(rt: HostRuntime) {
    for (from, navigation, safe_method, wanted) in [
        ("", false, true, Context::Cross),
        ("", true, false, Context::Strict),
        ("wss://www.h.test:9/x", false, false, Context::Strict),
        ("wss://www.h.test:9/x", true, false, Context::Strict),
        ("http://h.test/", false, true, Context::Cross),
        ("http://h.test/", true, true, Context::Lax),
        ("https://x.test/", false, true, Context::Cross),
        ("https://x.test/", true, false, Context::LaxUnsafe),
    ] {
        let found = context_from(&rt, rt.alloc(), from, navigation, safe_method);
        assert_eq!(rt; found, wanted, "{from}");
    }
}
