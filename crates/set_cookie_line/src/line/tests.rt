//! Values from the 6265bis draft, section 5.6, from RFC 6265, section 3.1, and from the rules of
//! docs/DEFINITIONS.md.
//!
//! A line is read, looked at and dropped by a call in a small function: elsewhere the proof has a
//! case for each of its forms.
use super::{Line, LineRefusal, read_line};
use jar_values::{Moment, Priority, SameSite, Text};
use std::alloc::Global;
use std::process::Abort;

/// The line of a text that isn't refused.
fn line(rt: &impl Abort, alloc: Global, text: &str) -> Line {
    read_line(alloc, text).expect(rt, "a line")
}

/// The refusal of a text, if it is refused.
fn refusal_of(alloc: Global, text: &str) -> Option<LineRefusal> {
    read_line(alloc, text).err()
}

/// The text, or `none` where there is none.
fn text_of(text: &Option<Text>) -> &str {
    match text {
        Some(text) => text.as_str(),
        None => "none",
    }
}

/// Whether a text has this name and this value.
fn has_pair(rt: &impl Abort, alloc: Global, text: &str, name: &str, value: &str) -> bool {
    let line = line(rt, alloc, text);
    let same = line.name.as_str() == name && line.value.as_str() == value;
    drop(line);
    same
}

#[test]
fn a_pair_is_divided_at_its_first_equals_sign(rt: HostRuntime) {
    let pairs = [
        ("a=1", "a", "1"),
        (" a \t=\t 1 ", "a", "1"),
        ("a=b=c", "a", "b=c"),
        ("v", "", "v"),
        ("=v", "", "v"),
        ("a=\"q r\"", "a", "\"q r\""),
        ("a=1;;; ;", "a", "1"),
        ("a\tb=1\t2", "a\tb", "1\t2"),
        (
            "SID=31d4d96e407aad42; Path=/; Secure",
            "SID",
            "31d4d96e407aad42",
        ),
    ];
    for (text, name, value) in pairs {
        assert!(rt; has_pair(&rt, rt.alloc(), text, name, value), "{text}");
    }
}

/// Whether a text has this path and this domain, or `none`.
fn has_place(rt: &impl Abort, alloc: Global, text: &str, path: &str, domain: &str) -> bool {
    let line = line(rt, alloc, text);
    let same = text_of(&line.path) == path && text_of(&line.domain) == domain;
    drop(line);
    same
}

#[test]
fn of_several_paths_or_domains_the_last_counts(rt: HostRuntime) {
    let lines = [
        ("a=1", "none", "none"),
        ("a=1; Path=/a; PATH = /b ", "/b", "none"),
        ("a=1; Path=/a; Path=x", "none", "none"),
        ("a=1; Domain=Example.COM", "none", "example.com"),
        ("a=1; Domain=..Example.com", "none", ".example.com"),
        ("a=1; Domain=a.test; Domain=.", "none", "none"),
        ("a=1; Domain=a.test; Domaine=b.test", "none", "a.test"),
    ];
    for (text, path, domain) in lines {
        assert!(rt; has_place(&rt, rt.alloc(), text, path, domain), "{text}");
    }
}

/// Whether a text has this Max-Age in seconds and this Expires in milliseconds.
fn has_lifetime(
    rt: &impl Abort,
    alloc: Global,
    text: &str,
    max_age: Option<u32>,
    expires: Option<u64>,
) -> bool {
    let line = line(rt, alloc, text);
    let same = line.max_age == max_age && line.expires.map(Moment::ms) == expires;
    drop(line);
    same
}

#[test]
fn of_several_lifetimes_the_last_readable_counts(rt: HostRuntime) {
    for (text, max_age, expires) in [
        ("a=1; Max-Age=60", Some(60), None),
        ("a=1; max-age=060; Max-Age=6x", Some(60), None),
        ("a=1; Max-Age=-5", Some(0), None),
        ("a=1; Max-Age=-", None, None),
        ("a=1; Max-Age=99999999999999999999", Some(34_560_000), None),
        (
            "a=1; Expires=Wed, 09 Jun 2021 10:18:14 GMT; Expires=0",
            None,
            Some(1_623_233_894_000),
        ),
    ] {
        assert!(rt;
            has_lifetime(&rt, rt.alloc(), text, max_age, expires),
            "{text}"
        );
    }
}

/// Secure, HttpOnly, SameSite and Priority of a text.
fn words_of(rt: &impl Abort, alloc: Global, text: &str) -> (bool, bool, SameSite, Priority) {
    let line = line(rt, alloc, text);
    let words = (line.secure, line.http_only, line.same_site, line.priority);
    drop(line);
    words
}

#[test]
fn flags_and_words_are_read_without_case(rt: HostRuntime) {
    for (text, wanted) in [
        (
            "a=1",
            (false, false, SameSite::Unspecified, Priority::Medium),
        ),
        (
            "a=1; SECURE=no; samesite=LAX",
            (true, false, SameSite::Lax, Priority::Medium),
        ),
        (
            "a=1; httponly; SameSite=none; Priority=low",
            (false, true, SameSite::NoLimit, Priority::Low),
        ),
        (
            "a=1; SameSite=Lax; SameSite=Strict; priority=HIGH",
            (false, false, SameSite::Strict, Priority::High),
        ),
        (
            "a=1; SameSite=Strict; SameSite=x; Priority=Low; Priority=x",
            (false, false, SameSite::Unspecified, Priority::Medium),
        ),
    ] {
        let found = words_of(&rt, rt.alloc(), text);
        assert_eq!(rt; found, wanted, "{text}");
    }
}

#[test]
fn a_line_keeps_each_of_its_parts(rt: HostRuntime) {
    let alloc = rt.alloc();
    let text = "n=v; Domain=.A.Test; Path=/p; Expires=Sun, 06 Nov 1994 08:49:37 GMT; Max-Age=1; \
        Secure; HttpOnly; SameSite=Lax; Priority=Low";
    assert!(rt; has_pair(&rt, alloc, text, "n", "v"));
    assert!(rt; has_place(&rt, alloc, text, "/p", "a.test"));
    assert!(rt; has_lifetime(&rt, alloc, text, Some(1), Some(784_111_777_000)));
    let words = words_of(&rt, alloc, text);
    assert_eq!(rt; words, (true, true, SameSite::Lax, Priority::Low));
}

#[test]
fn a_control_byte_refuses_a_line_first(rt: HostRuntime) {
    for text in ["\u{1}", "=;\u{7F}", " ;\n", "a=1;\0"] {
        let refusal = refusal_of(rt.alloc(), text);
        assert_eq!(rt; refusal, Some(LineRefusal::Control), "{text}");
    }
}

#[test]
fn lines_without_name_and_value_are_empty(rt: HostRuntime) {
    for text in ["", ";", "=", " ;Path=/", " \t= \t; Secure", "= ;a=1"] {
        let refusal = refusal_of(rt.alloc(), text);
        assert_eq!(rt; refusal, Some(LineRefusal::Empty), "{text}");
    }
}

/// A text with so many letters at its end.
fn with_letters(rt: &impl Abort, alloc: Global, start: &str, count: usize, letter: char) -> String {
    let mut text = String::from_str(alloc, start).expect(rt, "memory for a text");
    for _ in 0..count {
        text.push(letter).expect(rt, "memory for a text");
    }
    text
}

/// The refusal of a text with so many `v` at its end.
fn refusal_at(rt: &impl Abort, alloc: Global, start: &str, count: usize) -> Option<LineRefusal> {
    let text = with_letters(rt, alloc, start, count, 'v');
    let refusal = refusal_of(alloc, text.as_str());
    drop(text);
    refusal
}

#[test]
fn name_and_value_have_at_most_4096_bytes_together(rt: HostRuntime) {
    for (start, count, want) in [
        ("n=", 4095, None),
        ("n=", 4096, Some(LineRefusal::TooLong)),
        ("", 4096, None),
        ("", 4097, Some(LineRefusal::TooLong)),
        ("=\u{7F}", 4097, Some(LineRefusal::Control)),
    ] {
        let refusal = refusal_at(&rt, rt.alloc(), start, count);
        assert_eq!(rt; refusal, want, "{start} and {count}");
    }
}

/// The length of the path, or of `none`, of a text with so many `p` at its end.
fn path_length(rt: &impl Abort, alloc: Global, start: &str, count: usize) -> usize {
    let text = with_letters(rt, alloc, start, count, 'p');
    let line = line(rt, alloc, text.as_str());
    let length = text_of(&line.path).len();
    drop(line);
    drop(text);
    length
}

#[test]
fn an_attribute_of_more_than_1024_bytes_is_dropped_alone(rt: HostRuntime) {
    for (start, count, want) in [
        ("a=1; Path=/", 1023, 1024),
        ("a=1; Path=/", 1024, 4),
        ("a=1; Path=/a; Path=/", 1024, 2),
        ("a=1; Path=/a; Path=x", 1023, 4),
    ] {
        let length = path_length(&rt, rt.alloc(), start, count);
        assert_eq!(rt; length, want, "{start} and {count}");
    }
}
