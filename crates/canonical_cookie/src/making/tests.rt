//! Cookies of lines as tables. The values are from the 6265bis draft, sections 5.5 and 5.7, and from
//! the rules of docs/DEFINITIONS.md. The rules of suffixes are `com` and `s3.amazonaws.com`.
//!
//! A value that owns texts is made, looked at and dropped in a small function, and what is shown of
//! it is one text or number: elsewhere the proof has a case for each of its forms.

use super::make;
use crate::refusal::CookieRefusal;
use crate::stored::{from_row, row_of};
use jar_types::{Context, Cookie, Row};
use jar_values::{MAX_MOMENT, Moment};
use public_suffix::Suffixes;
use set_cookie_line::{Line, read_line};
use site_match::Place;
use std::alloc::Global;
use std::process::Abort;

mod refusals;

/// How a line comes: in a context, and by a script or HTTP.
type Way = (Context, bool);

/// A line from the place's own site, by HTTP.
const OWN: Way = (Context::Strict, false);

/// The rules of these tests.
fn rules(rt: &impl Abort, alloc: Global) -> Suffixes {
    Suffixes::read(alloc, "com\ns3.amazonaws.com").expect(rt, "a list")
}

/// The place of a URL of less than 1,000 bytes.
fn place(rt: &impl Abort, alloc: Global, suffixes: &Suffixes, url: &str) -> Place {
    assert!(rt; url.len() < 1000);
    Place::read(alloc, suffixes, url).expect(rt, "a place")
}

/// The line of a text.
fn line(rt: &impl Abort, alloc: Global, text: &str) -> Line {
    read_line(alloc, text).expect(rt, "a line")
}

/// What a line makes at a URL.
fn made_at(
    rt: &impl Abort,
    alloc: Global,
    url: &str,
    line: &Line,
    way: Way,
    now: Moment,
) -> Result<Cookie, CookieRefusal> {
    let suffixes = rules(rt, alloc);
    let place = place(rt, alloc, &suffixes, url);
    let made = make(alloc, &suffixes, line, &place, way.0, way.1, now);
    drop(place);
    drop(suffixes);
    made
}

/// What a URL and a line, with a space between them, make now.
fn made(
    rt: &impl Abort,
    alloc: Global,
    row: &str,
    way: Way,
    now: u64,
) -> Result<Cookie, CookieRefusal> {
    let (url, text) = row.split_once(' ').expect(rt, "a URL and a line");
    let now = Moment::of(now).expect(rt, "a moment");
    let line = line(rt, alloc, text);
    let made = made_at(rt, alloc, url, &line, way, now);
    drop(line);
    made
}

/// The cookie that a URL and a line make now, by HTTP and from their own site.
fn cookie(rt: &impl Abort, alloc: Global, row: &str, now: u64) -> Cookie {
    made(rt, alloc, row, OWN, now).expect(rt, "a cookie")
}

/// Host, path and key of a cookie.
fn parts(rt: &impl Abort, alloc: Global, cookie: &Cookie) -> String {
    let (host, path, key) = (
        cookie.host.as_str(),
        cookie.path.as_str(),
        cookie.key.as_str(),
    );
    format!(in alloc; "{host} {path} {key}").expect(rt, "memory for a text")
}

/// The cookie of a URL and a line has this host, path and key.
fn has_parts(rt: &impl Abort, alloc: Global, row: &str, wanted: &str) {
    let cookie = cookie(rt, alloc, row, 5);
    let found = parts(rt, alloc, &cookie);
    drop(cookie);
    assert_eq!(rt; found.as_str(), wanted, "{row}");
}

#[test]
fn a_cookie_has_a_host_a_path_and_a_key(rt: HostRuntime) {
    for (row, wanted) in [
        ("https://h.test/ x=1", "h.test / h.test"),
        (
            "https://a.h.test/p/q x=1; Domain=h.test",
            ".h.test /p h.test",
        ),
        (
            "https://a.h.test/p/q x=1; Domain=.A.H.test",
            ".a.h.test /p h.test",
        ),
        ("https://a.h.test/p/q x=1; Domain=.", "a.h.test /p h.test"),
        ("https://com/ x=1; Domain=com", "com / com"),
        ("https://1.2.3.4/ x=1; Domain=1.2.3.4", "1.2.3.4 / 1.2.3.4"),
        ("https://h.test/a;b/c x=1; Max-Age=9", "h.test /a;b h.test"),
        ("https://h.test/a/b x=1; Path=/z", "h.test /z h.test"),
        ("https://h.test/a/b x=1; Path=z", "h.test /a h.test"),
        (
            "https://a.b.s3.amazonaws.com/ x=1",
            "a.b.s3.amazonaws.com / b.s3.amazonaws.com",
        ),
    ] {
        has_parts(&rt, rt.alloc(), row, wanted);
    }
}

/// Name, value, flags, words, creation and access of a cookie.
fn told(rt: &impl Abort, alloc: Global, cookie: &Cookie) -> String {
    let (name, value) = (cookie.name.as_str(), cookie.value.as_str());
    let flags = (cookie.secure, cookie.http_only);
    let words = (cookie.same_site, cookie.priority);
    let times = (cookie.creation.ms(), cookie.access.ms());
    format!(in alloc; "{name} {value} {flags:?} {words:?} {times:?}").expect(
        rt,
        "memory for a text",
    )
}

#[test]
fn a_cookie_has_what_its_line_says(rt: HostRuntime) {
    let row = "https://h.test/ a=b; Secure; HttpOnly; SameSite=Lax; Priority=High";
    let cookie = cookie(&rt, rt.alloc(), row, 7);
    let found = told(&rt, rt.alloc(), &cookie);
    drop(cookie);
    assert_eq!(rt; found.as_str(), "a b (true, true) (Lax, High) (7, 7)");
}

/// The milliseconds of the expiry of the cookie that a URL and a line make now.
fn expiry(rt: &impl Abort, alloc: Global, row: &str, now: u64) -> Option<u64> {
    let cookie = cookie(rt, alloc, row, now);
    let expiry = cookie.expiry;
    drop(cookie);
    expiry.map(Moment::ms)
}

/// 9 Jun 2021 10:18:14 UTC.
const JUNE: u64 = 1_623_233_894_000;

#[test]
fn an_expiry_is_asked_for_and_capped(rt: HostRuntime) {
    let nine = "https://h.test/ x=1; Max-Age=9";
    let june = "https://h.test/ x=1; Expires=9 Jun 2021 10:18:14";
    for (row, now, wanted) in [
        ("https://h.test/ x=1", 5, None),
        (
            "https://h.test/ x=1; Max-Age=0; Expires=9 Jun 2021 10:18:14",
            5,
            Some(0),
        ),
        (nine, 5, Some(9005)),
        (
            "https://h.test/ x=1; Max-Age=99999999999999999999",
            5,
            Some(34_560_000_005),
        ),
        (june, JUNE - 34_560_000_001, Some(JUNE - 1)),
        (june, JUNE + 1, Some(JUNE)),
        (nine, MAX_MOMENT - 9001, Some(MAX_MOMENT - 1)),
        (nine, MAX_MOMENT, Some(MAX_MOMENT)),
    ] {
        assert_eq!(rt; expiry(&rt, rt.alloc(), row, now), wanted, "{row}");
    }
}

/// The row of the cookie that a URL and a line make.
fn row(rt: &impl Abort, alloc: Global, row: &str) -> Row {
    let cookie = cookie(rt, alloc, row, 5);
    let row = row_of(alloc, &cookie).expect(rt, "memory for a row");
    drop(cookie);
    row.expect(rt, "a row")
}

/// The cookie of a row.
fn cookie_of(rt: &impl Abort, alloc: Global, row: &Row) -> Cookie {
    let suffixes = rules(rt, alloc);
    let cookie = from_row(alloc, &suffixes, row).expect(rt, "memory for a cookie");
    drop(suffixes);
    cookie.expect(rt, "a cookie")
}

/// The cookie that is read from the row of the one of a URL and a line has this host, path and key.
fn comes_back(rt: &impl Abort, alloc: Global, text: &str, wanted: &str) {
    let row = row(rt, alloc, text);
    let cookie = cookie_of(rt, alloc, &row);
    drop(row);
    let found = parts(rt, alloc, &cookie);
    drop(cookie);
    assert_eq!(rt; found.as_str(), wanted, "{text}");
}

#[test]
fn a_made_cookie_comes_back_from_its_row(rt: HostRuntime) {
    for (row, wanted) in [
        ("https://h.test/a;b/c x=1; Max-Age=9", "h.test /a;b h.test"),
        (
            "https://a.h.test/ x; Domain=h.test; Max-Age=9",
            ".h.test / h.test",
        ),
        (
            "https://[::1]/ x=; Domain=[::1]; Max-Age=9",
            "[::1] / [::1]",
        ),
    ] {
        comes_back(&rt, rt.alloc(), row, wanted);
    }
}
