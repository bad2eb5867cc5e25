//! Each allocating call with ample memory, with its answer.

use crate::{
    Listed, Moment, Text, Texts, has_host_prefix, has_secure_prefix, is_blank, is_control, undotted,
};
use std::alloc::Global;
use std::cmp::Ordering;
use std::process::Abort;
use std::test::Fail;

#[test]
fn moments_end_with_the_year_9999(rt: HostRuntime) -> Result<(), Fail> {
    let last = Moment::of(253_402_300_799_999).map(Moment::ms);
    assert_eq!(rt; last, Some(253_402_300_799_999));
    assert!(rt; Moment::of(253_402_300_800_000).is_none());
    Ok(())
}

/// A text of these bytes.
fn text(rt: &impl Abort, alloc: Global, source: &str) -> Text {
    Text::of(alloc, source).expect(rt, "memory for a text")
}

/// The text of a string has its bytes, and so has a copy that outlives it.
fn is_copied(rt: &impl Abort, alloc: Global, source: &str) {
    let string = String::from_str(alloc, source).expect(rt, "memory for a string");
    let text = Text::from_string(string).expect(rt, "memory for a text");
    let copy = text.copy(alloc).expect(rt, "a copy");
    drop(text);
    assert_eq!(rt; copy.as_str(), source);
}

#[test]
fn texts_of_strings_and_copies_have_their_bytes(rt: HostRuntime) {
    for source in ["h.test", "", "h\u{e9}"] {
        is_copied(&rt, rt.alloc(), source);
        assert_eq!(rt; text(&rt, rt.alloc(), source).as_str(), source);
    }
}

/// How a text stands to another.
fn order(rt: &impl Abort, alloc: Global, one: &str, other: &str) -> Ordering {
    let other = text(rt, alloc, other);
    text(rt, alloc, one).cmp(&other)
}

#[test]
fn texts_are_in_the_order_of_their_bytes(rt: HostRuntime) {
    for (one, other, wanted) in [
        ("h.tes", "h.test", Ordering::Less),
        ("h.test", "h.test", Ordering::Equal),
        ("i", "h.test", Ordering::Greater),
        ("H", "h", Ordering::Less),
    ] {
        let found = order(&rt, rt.alloc(), one, other);
        assert_eq!(rt; found, wanted, "{one} and {other}");
    }
}

/// How many texts a long list has.
const MANY: usize = 200;

/// That many texts `x`, and `y` behind them.
fn many(rt: &impl Abort, alloc: Global) -> Texts {
    let mut texts = Listed::new(alloc);
    for _ in 0..MANY {
        texts
            .push(text(rt, alloc, "x"))
            .expect(rt, "memory for a list");
    }
    texts
        .push(text(rt, alloc, "y"))
        .expect(rt, "memory for a list");
    texts
}

/// A copy that outlives its list.
fn copy(rt: &impl Abort, alloc: Global) -> Texts {
    let texts = many(rt, alloc);
    let copies = texts.copy(alloc).expect(rt, "memory for a copy");
    drop(texts);
    copies
}

#[test]
fn a_copied_list_has_the_same_texts(rt: HostRuntime) {
    let mut copies = copy(&rt, rt.alloc());
    assert_eq!(rt; copies.len(), MANY + 1);
    assert_eq!(rt; copies.get(MANY - 1).map(Text::as_str), Some("x"));
    let last = copies.pop().expect(&rt, "a text");
    assert_eq!(rt; last.as_str(), "y");
    assert!(rt; copies.get(MANY).is_none());
}

#[test]
fn bytes_and_names_are_told_apart(rt: HostRuntime) -> Result<(), Fail> {
    for byte in [0x00, 0x08, 0x0A, 0x1F, 0x7F] {
        assert!(rt; is_control(byte));
    }
    for byte in [0x09, 0x20, 0x7E, 0x80] {
        assert!(rt; !is_control(byte));
    }
    assert!(rt; is_blank(0x20) && is_blank(0x09) && !is_blank(0x0B));
    assert!(rt; has_secure_prefix("__sECURE-a") && !has_secure_prefix("__Secure"));
    assert!(rt; has_host_prefix("__hOST-") && !has_host_prefix("_Host-a"));
    Ok(())
}

// The values are from RFC 6265, section 5.2.3, by which one leading dot is dropped.
#[test]
fn one_leading_dot_is_dropped(rt: HostRuntime) {
    for (host, wanted) in [
        (".h.test", "h.test"),
        ("h.test", "h.test"),
        ("..h.test", ".h.test"),
        ("", ""),
    ] {
        assert_eq!(rt; undotted(host), wanted, "{host}");
    }
}
