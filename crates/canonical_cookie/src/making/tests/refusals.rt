//! Refusals as tables. The values are from the 6265bis draft, sections 5.4 and 5.7, and from the rules
//! of docs/DEFINITIONS.md. Which of two causes refuses first is a fact (`proofs/StandardFacts.antt`).

use super::{OWN, Way, made};
use crate::refusal::CookieRefusal::{
    self, CrossSite, DomainMismatch, DomainNotAscii, DomainSuffix, HttpOnlyFromScript, KeyMismatch,
    NoneInsecure, PrefixHost, PrefixNameless, PrefixSecure, SecureFromInsecure,
};
use jar_types::Context;
use std::alloc::Global;
use std::process::Abort;

/// A line from another site, by HTTP.
const CROSS: Way = (Context::Cross, false);

/// A line from the place's own site, by a script.
const SCRIPT: Way = (Context::Strict, true);

/// The refusal of a URL and a line, with a space between them; none where they make a cookie.
fn refusal(rt: &impl Abort, alloc: Global, row: &str, way: Way) -> Option<CookieRefusal> {
    made(rt, alloc, row, way, 5).err()
}

/// Each of these URLs and lines, which come in this way, has this refusal.
fn come_to(rt: &impl Abort, alloc: Global, way: Way, wanted: Option<CookieRefusal>, rows: &[&str]) {
    for row in rows {
        assert_eq!(rt; refusal(rt, alloc, row, way), wanted, "{row}");
    }
}

#[test]
fn each_cause_of_a_domain_refuses(rt: HostRuntime) {
    let alloc = rt.alloc();
    let not_ascii = ["https://a.h.test/ x=1; Domain=h.t\u{e9}st"];
    let suffixes = [
        "https://h.test/ x=1; Domain=test",
        "https://h.com/ x=1; Domain=com",
        "https://b.s3.amazonaws.com/ x=1; Domain=s3.amazonaws.com",
    ];
    let mismatches = [
        "https://h.test/ x=1; Domain=a.h.test",
        "https://ah.test/ x=1; Domain=h.test",
        "https://h.test/ x=1; Domain=..h.test",
        "https://1.2.3.4/ x=1; Domain=3.4",
    ];
    let other_keys = ["https://b.s3.amazonaws.com/ x=1; Domain=amazonaws.com"];
    come_to(&rt, alloc, OWN, Some(DomainNotAscii), &not_ascii);
    come_to(&rt, alloc, OWN, Some(DomainSuffix), &suffixes);
    come_to(&rt, alloc, OWN, Some(DomainMismatch), &mismatches);
    come_to(&rt, alloc, OWN, Some(KeyMismatch), &other_keys);
}

#[test]
fn each_cause_of_a_source_refuses(rt: HostRuntime) {
    let alloc = rt.alloc();
    let insecure = ["http://h.test/ x=1; Secure", "ws://h.test/ x=1; Secure"];
    let http_only = ["https://h.test/ x=1; HttpOnly"];
    let none = ["https://h.test/ x=1; SameSite=None"];
    let other_sites = ["https://h.test/ x=1", "https://h.test/ x=1; SameSite=Lax"];
    come_to(&rt, alloc, OWN, Some(SecureFromInsecure), &insecure);
    come_to(&rt, alloc, SCRIPT, Some(HttpOnlyFromScript), &http_only);
    come_to(&rt, alloc, OWN, Some(NoneInsecure), &none);
    come_to(&rt, alloc, CROSS, Some(CrossSite), &other_sites);
}

#[test]
fn a_reserved_name_keeps_what_it_asks_for(rt: HostRuntime) {
    let alloc = rt.alloc();
    let secure_names = ["https://h.test/ __secure-=1"];
    let host_names = [
        "https://h.test/ __Host-x=1; Path=/",
        "https://h.test/ __HOST-x=1; Secure",
        "https://h.test/ __Host-x=1; Secure; Path=/a",
        "https://com/ __Host-x=1; Secure; Path=/; Domain=com",
    ];
    let nameless = [
        "https://h.test/ =__secure-x; Secure",
        "https://h.test/ __Host-x; Secure; Path=/",
    ];
    come_to(&rt, alloc, OWN, Some(PrefixSecure), &secure_names);
    come_to(&rt, alloc, OWN, Some(PrefixHost), &host_names);
    come_to(&rt, alloc, OWN, Some(PrefixNameless), &nameless);
}

#[test]
fn without_a_cause_a_cookie_is_made(rt: HostRuntime) {
    let alloc = rt.alloc();
    let own = [
        "wss://h.test/ x=1; Secure",
        "https://h.test/ __Secure-x=1; Secure; Path=/a",
        "https://h.test/ __Secure=1",
        "https://h.test/ __Host-x=1; Secure; Path=/; Domain=.",
        "https://h.test/ x=__Host-x",
    ];
    let page = (Context::Lax, true);
    let form = (Context::LaxUnsafe, false);
    let none = ["https://h.test/ x=1; Secure; SameSite=None"];
    come_to(&rt, alloc, OWN, None, &own);
    come_to(&rt, alloc, page, None, &["http://h.test/ x=1"]);
    come_to(&rt, alloc, form, None, &["http://h.test/ x=1; HttpOnly"]);
    come_to(&rt, alloc, CROSS, None, &none);
}
