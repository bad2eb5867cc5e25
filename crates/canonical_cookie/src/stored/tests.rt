//! Rows and cookies there and back, as tables. The values are from the six points of a sound row:
//! docs/DEFINITIONS.md.
//!
//! A value that owns texts is made, looked at and dropped in a small function, and what is shown of
//! it is one text or number: elsewhere the proof has a case for each of its forms.

use super::{from_row, row_of};
use jar_types::{Cookie, Row};
use jar_values::{MAX_MOMENT, Moment, Priority, SameSite, Text};
use public_suffix::Suffixes;
use std::alloc::Global;
use std::process::Abort;

/// Host, name, path and value of a row.
type Words = [&'static str; 4];

/// Creation, expiry, access, Secure, HttpOnly, SameSite and priority of a row.
type Numbers = [i64; 7];

/// The last moment as a number of a row.
const LAST: i64 = MAX_MOMENT as i64;

/// A text of these bytes.
fn text(rt: &impl Abort, alloc: Global, source: &str) -> Text {
    Text::of(alloc, source).expect(rt, "memory for a text")
}

/// A row of these words and numbers.
fn row(rt: &impl Abort, alloc: Global, words: Words, numbers: Numbers) -> Row {
    Row {
        host: text(rt, alloc, words[0]),
        name: text(rt, alloc, words[1]),
        path: text(rt, alloc, words[2]),
        value: text(rt, alloc, words[3]),
        creation: numbers[0],
        expiry: numbers[1],
        access: numbers[2],
        secure: numbers[3],
        http_only: numbers[4],
        same_site: numbers[5],
        priority: numbers[6],
    }
}

/// The cookie of a row, under the rule `test`.
fn read(rt: &impl Abort, alloc: Global, row: &Row) -> Option<Cookie> {
    let suffixes = Suffixes::read(alloc, "test").expect(rt, "a list");
    let cookie = from_row(alloc, &suffixes, row).expect(rt, "memory for a cookie");
    drop(suffixes);
    cookie
}

/// Whether a row of these words and numbers stands for a cookie.
fn is_read(rt: &impl Abort, alloc: Global, words: Words, numbers: Numbers) -> bool {
    let row = row(rt, alloc, words, numbers);
    let is_read = read(rt, alloc, &row).is_some();
    drop(row);
    is_read
}

/// A sound row's words and numbers.
const WORDS: Words = ["h.test", "a", "/", "1"];

const NUMBERS: Numbers = [1, 9, 5, 0, 0, 2, 1];

/// The four words of a text, with bars between them.
fn words(rt: &impl Abort, text: &'static str) -> Words {
    let (host, rest) = text.split_once('|').expect(rt, "a host");
    let (name, rest) = rest.split_once('|').expect(rt, "a name");
    let (path, value) = rest.split_once('|').expect(rt, "a path and a value");
    [host, name, path, value]
}

/// Rows of these words are sound, or none is.
fn words_are(rt: &impl Abort, alloc: Global, rows: &[&'static str], sound: bool) {
    for row in rows {
        let found = is_read(rt, alloc, words(rt, row), NUMBERS);
        assert_eq!(rt; found, sound, "{row}");
    }
}

#[test]
fn words_of_a_row_are_sound_or_not(rt: HostRuntime) {
    let sound = [
        "h.test|a|/|1",
        ".h.test||/|1",
        "h!~test|a\tb|/p;q|c\td=2",
        "[::1]|a|/|",
    ];
    let unsound = [
        "|a|/|1",
        ".|a|/|1",
        "H.test|a|/|1",
        "h.t\u{e9}st|a|/|1",
        "h.test|a|p|1",
        "h.test|a|/\u{7f}|1",
        "h.test|a\nb|/|1",
        "h.test|a;b|/|1",
        "h.test|a|/|1;2",
        "h.test|a=b|/|1",
        "h.test| a|/|1",
        "h.test|a|/|1\t",
        "h.test||/|",
    ];
    words_are(&rt, rt.alloc(), &sound, true);
    words_are(&rt, rt.alloc(), &unsound, false);
}

#[test]
fn numbers_of_a_row_are_sound_or_not(rt: HostRuntime) {
    for (numbers, sound) in [
        ([0, 0, 0, 0, 0, 0, 0], true),
        ([LAST, LAST, LAST, 1, 1, 3, 2], true),
        ([1, 9, 5, 1, 0, 1, 1], true),
        ([-1, 9, 5, 0, 0, 2, 1], false),
        ([1, LAST + 1, 5, 0, 0, 2, 1], false),
        ([1, 9, -1, 0, 0, 2, 1], false),
        ([1, 9, 5, 2, 0, 2, 1], false),
        ([1, 9, 5, 0, -1, 2, 1], false),
        ([1, 9, 5, 0, 0, 4, 1], false),
        ([1, 9, 5, 0, 0, 2, 3], false),
        ([1, 9, 5, 0, 0, 1, 1], false),
    ] {
        let found = is_read(&rt, rt.alloc(), WORDS, numbers);
        assert_eq!(rt; found, sound, "{numbers:?}");
    }
}

#[test]
fn a_row_of_a_reserved_form_keeps_what_it_asks_for(rt: HostRuntime) {
    for (words, secure, sound) in [
        (["h.test", "__Secure-a", "/p", "1"], 1, true),
        (["h.test", "__Secure-a", "/p", "1"], 0, false),
        (["h.test", "__HOST-a", "/", "1"], 1, true),
        (["h.test", "__HOST-a", "/", "1"], 0, false),
        ([".h.test", "__Host-a", "/", "1"], 1, false),
        (["h.test", "__Host-a", "/p", "1"], 1, false),
        (["h.test", "", "/", "__Secure-a"], 1, false),
        (["h.test", "a", "/", "__Host-a"], 0, true),
    ] {
        let numbers = [1, 9, 5, secure, 0, 2, 1];
        let found = is_read(&rt, rt.alloc(), words, numbers);
        assert_eq!(rt; found, sound, "{words:?} {secure}");
    }
}

/// A text of so many bytes.
fn long(rt: &impl Abort, alloc: Global, count: usize) -> Text {
    let mut text = String::new(alloc);
    for _ in 0..count {
        text.push('a').expect(rt, "memory for a text");
    }
    Text::from_string(text).expect(rt, "memory for a text")
}

/// Whether a row is sound whose name has one byte and whose value has so many.
fn holds(rt: &impl Abort, alloc: Global, count: usize) -> bool {
    let mut row = row(rt, alloc, WORDS, NUMBERS);
    row.value = long(rt, alloc, count);
    let holds = read(rt, alloc, &row).is_some();
    drop(row);
    holds
}

#[test]
fn a_row_holds_4096_bytes_of_name_and_value(rt: HostRuntime) {
    assert!(rt; holds(&rt, rt.alloc(), 4095));
    assert!(rt; !holds(&rt, rt.alloc(), 4096));
}

/// The cookie of a row of these words and numbers.
fn cookie(rt: &impl Abort, alloc: Global, words: Words, numbers: Numbers) -> Cookie {
    let row = row(rt, alloc, words, numbers);
    let cookie = read(rt, alloc, &row);
    drop(row);
    cookie.expect(rt, "a cookie")
}

/// The row of the cookie of a row of these words and numbers.
fn back(rt: &impl Abort, alloc: Global, words: Words, numbers: Numbers) -> Row {
    let cookie = cookie(rt, alloc, words, numbers);
    let row = row_of(alloc, &cookie).expect(rt, "memory for a row");
    drop(cookie);
    row.expect(rt, "a row")
}

/// The row that is written of the cookie of a row is that row.
fn goes_back(rt: &impl Abort, alloc: Global, words: Words, numbers: Numbers) {
    let row = back(rt, alloc, words, numbers);
    let texts = [
        row.host.as_str(),
        row.name.as_str(),
        row.path.as_str(),
        row.value.as_str(),
    ];
    assert_eq!(rt; texts, words);
    let found = [
        row.creation,
        row.expiry,
        row.access,
        row.secure,
        row.http_only,
        row.same_site,
        row.priority,
    ];
    assert_eq!(rt; found, numbers);
}

#[test]
fn a_sound_row_goes_to_a_cookie_and_back(rt: HostRuntime) {
    for (words, numbers) in [
        (WORDS, NUMBERS),
        ([".h.test", "", "/a;b", "c d"], [0, LAST, 7, 1, 0, 1, 0]),
        (["1.2.3.4", "n", "/p", ""], [3, 2, 1, 0, 1, 0, 2]),
        (["h.test", "__Host-n", "/", "v"], [8, 9, 9, 1, 1, 3, 2]),
    ] {
        goes_back(&rt, rt.alloc(), words, numbers);
    }
}

/// The parts of a cookie.
fn told(rt: &impl Abort, alloc: Global, cookie: &Cookie) -> String {
    let texts = [
        cookie.key.as_str(),
        cookie.host.as_str(),
        cookie.name.as_str(),
        cookie.path.as_str(),
        cookie.value.as_str(),
    ];
    let expiry = cookie.expiry.map(Moment::ms);
    let times = (cookie.creation.ms(), cookie.access.ms(), expiry);
    let kinds = (cookie.secure, cookie.http_only, cookie.same_site);
    let priority = cookie.priority;
    format!(in alloc; "{texts:?} {times:?} {kinds:?} {priority:?}").expect(rt, "memory for a text")
}

#[test]
fn a_cookie_has_what_its_row_says(rt: HostRuntime) {
    let words = [".a.h.test", "n", "/p", "v"];
    let cookie = cookie(&rt, rt.alloc(), words, [1, 9, 5, 1, 0, 1, 2]);
    let found = told(&rt, rt.alloc(), &cookie);
    drop(cookie);
    assert_eq!(rt;
        found.as_str(),
        "[\"h.test\", \".a.h.test\", \"n\", \"/p\", \"v\"] (1, 5, Some(9)) (true, false, NoLimit) High"
    );
}

/// A session cookie of `h.test`.
fn session(rt: &impl Abort, alloc: Global) -> Cookie {
    let now = Moment::of(1).expect(rt, "a moment");
    Cookie {
        key: text(rt, alloc, "h.test"),
        host: text(rt, alloc, "h.test"),
        name: text(rt, alloc, "a"),
        path: text(rt, alloc, "/"),
        value: text(rt, alloc, "1"),
        creation: now,
        access: now,
        expiry: None,
        secure: false,
        http_only: false,
        same_site: SameSite::Lax,
        priority: Priority::Medium,
    }
}

#[test]
fn a_session_cookie_has_no_row(rt: HostRuntime) {
    let cookie = session(&rt, rt.alloc());
    let row = row_of(rt.alloc(), &cookie).expect(&rt, "memory");
    drop(cookie);
    assert!(rt; row.is_none());
}
