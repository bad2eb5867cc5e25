//! Lists and hosts as tables. The values are from the Public Suffix List format's text and this
//! jar's own rules.
//!
//! A list is made, looked at and dropped in a small function: elsewhere the proof has a case for
//! each of its forms.

use crate::refusal::{MAX_RULES, SuffixRefusal};
use crate::suffixes::Suffixes;
use std::alloc::Global;
use std::process::Abort;

/// The list of a text of less than 1,000,000 bytes, or its refusal.
fn read(rt: &impl Abort, alloc: Global, text: &str) -> Result<Suffixes, SuffixRefusal> {
    assert!(rt; text.len() < 1_000_000);
    Suffixes::read(alloc, text)
}

/// The list of a text.
fn list(rt: &impl Abort, alloc: Global, text: &str) -> Suffixes {
    read(rt, alloc, text).expect(rt, "a list")
}

/// A host, its key, and whether it is a suffix.
type Row = (&'static str, &'static str, bool);

/// A list answers as these rows say.
fn answers(rt: &impl Abort, list: &Suffixes, rows: &[Row]) {
    for (host, key, suffix) in rows {
        assert_eq!(rt; list.key(host), *key, "the key of {host}");
        assert_eq!(rt; list.is_suffix(host), *suffix, "whether {host} is a suffix");
    }
}

/// The copy of a text's list, which outlives the list, answers as these rows say.
fn copy_answers(rt: &impl Abort, alloc: Global, text: &str, rows: &[Row]) {
    let list = list(rt, alloc, text);
    let copy = list.copy(alloc).expect(rt, "memory for a copy");
    drop(list);
    answers(rt, &copy, rows);
}

#[test]
fn keys_are_the_suffix_and_one_label_more(rt: HostRuntime) {
    let text = "// a comment\nuk\r\nco.uk \t after a blank\n\n*.ck\n!www.ck\n公司.cn";
    let rows = [
        ("shop.example.co.uk", "example.co.uk", false),
        ("foo.www.ck", "www.ck", false),
        ("a.b.ck", "a.b.ck", false),
        ("c.a.b.ck", "a.b.ck", false),
        ("b.ck", "b.ck", true),
        ("ck", "ck", true),
        ("co.uk", "co.uk", true),
        ("www.xco.uk", "xco.uk", false),
        ("w.a.xn--55qx5d.cn", "a.xn--55qx5d.cn", false),
        ("a.b.example", "b.example", false),
        ("10.0.0.1", "10.0.0.1", false),
        ("[::1]", "[::1]", false),
        ("a.co.uk.", "a.co.uk.", false),
        ("", "", false),
    ];
    copy_answers(&rt, rt.alloc(), text, &rows);
}

#[test]
fn rules_of_one_text_have_all_their_marks(rt: HostRuntime) {
    let text = "*\nb.c\n*.b.c\n!x.b.c\nb.c\n!z.y\n*.w.z.y\n!a.a.a\na.a";
    let rows = [
        ("b.c", "b.c", true),
        ("a.b.c", "a.b.c", true),
        ("e.d.a.b.c", "d.a.b.c", false),
        ("w.x.b.c", "x.b.c", false),
        ("z.y", "z.y", false),
        ("u.v.w.z.y", "z.y", false),
        ("a.a", "a.a", true),
        ("a.a.a.a", "a.a.a", false),
    ];
    copy_answers(&rt, rt.alloc(), text, &rows);
}

/// Adds the line of a numbered rule.
fn add_line(rt: &impl Abort, alloc: Global, text: &mut String, rule: u32) {
    let line = format!(in alloc; "r{rule}.example\n").expect(rt, "memory for a line");
    text.push_str(line.as_str()).expect(rt, "memory for a text");
    drop(line);
}

/// A text of so many numbered rules.
fn numbered(rt: &impl Abort, alloc: Global, count: u32) -> String {
    let mut text = String::new(alloc);
    for rule in 0..count {
        add_line(rt, alloc, &mut text, rule);
    }
    text
}

#[test]
fn a_copy_of_two_hundred_rules_answers_as_the_list(rt: HostRuntime) {
    let rows = [
        ("r0.example", "r0.example", true),
        ("b.a.r199.example", "a.r199.example", false),
        ("b.r200.example", "r200.example", false),
    ];
    let text = numbered(&rt, rt.alloc(), 200);
    copy_answers(&rt, rt.alloc(), text.as_str(), &rows);
}

/// The first bad line of a text; 0 where it is a list.
fn bad_line(rt: &impl Abort, alloc: Global, text: &str) -> u32 {
    match read(rt, alloc, text) {
        Ok(_) => 0,
        Err(SuffixRefusal::BadRule { line }) => line,
        Err(_) => u32::MAX,
    }
}

#[test]
fn a_list_is_refused_at_its_first_bad_line(rt: HostRuntime) {
    for (text, line) in [
        ("", 0),
        ("*\r\n*.a\n!a.b", 0),
        ("a!b.c\n!!a.b\n*.!a\n//x", 0),
        ("a..b", 1),
        ("uk\n\n// c\n*a\n!b", 4),
        ("a.*", 1),
        ("!*.a", 1),
        ("!a", 1),
        ("a\n*.", 2),
        ("a\nb%c", 2),
        ("\u{ff0a}.a", 1),
    ] {
        assert_eq!(rt; bad_line(&rt, rt.alloc(), text), line, "{text}");
    }
}

/// A text of lines with the one rule `a`, and a last line.
fn repeated(rt: &impl Abort, alloc: Global, lines: usize, last: &str) -> String {
    let mut text = String::new(alloc);
    for _ in 0..lines {
        text.push_str("a\n").expect(rt, "memory for a text");
    }
    text.push_str(last).expect(rt, "memory for a text");
    text
}

/// The refusal of so many lines with the one rule `a`, and a last line.
fn refusal(rt: &impl Abort, alloc: Global, lines: usize, last: &str) -> Option<SuffixRefusal> {
    let text = repeated(rt, alloc, lines, last);
    let refusal = read(rt, alloc, text.as_str()).err();
    drop(text);
    refusal
}

#[test]
fn a_list_has_twenty_thousand_rules_at_most(rt: HostRuntime) {
    let many = Some(SuffixRefusal::TooMany);
    let bad = Some(SuffixRefusal::BadRule { line: 20_010 });
    assert_eq!(rt; refusal(&rt, rt.alloc(), MAX_RULES, ""), None);
    assert_eq!(rt; refusal(&rt, rt.alloc(), MAX_RULES, "a"), many);
    assert_eq!(rt;
        refusal(&rt, rt.alloc(), MAX_RULES + 9, "!a"),
        bad,
        "past the limit"
    );
}
