//! A key and a jar that have too many cookies.

ghost use Rattle.std.specs.Prelude.{◌^◌, ◌<◌};

use super::rows::{Kind, Row, get, moving, set, whole};
use super::runs::all_replies;
use jar_types::NoMemory;
use std::alloc::Global;
use std::test::Fail;

/// Adds Sets of the cookies `n1` up to a number to rows, of a host that is its own key, each at the moment of its number.
pub fn add_sets(rows: &mut Vec<Row>, host: &'static str, last: u64) -> Result<(), NoMemory>
    requires { last < 2 ^ 62 }
{
    for number in 1..last + 1 {
        rows.push(Row {
            key: host,
            host,
            number,
            ..set("n", "/", number)
        })?;
    }
    Ok(())
}

/// The count of the cookies of a host that is its own key, at a moment.
fn count(host: &'static str, now: u64) -> Row {
    Row {
        kind: Kind::Count,
        key: host,
        host,
        ..get(now)
    }
}

/// What is left of 181 cookies of a key, each with its creation and its access.
fn left_of_a_key(alloc: Global) -> Result<String, NoMemory> {
    let mut left = String::new(alloc);
    for number in 32..182_u64 {
        let part = format!(in alloc; "n{number} {number} {number};")?;
        left.push_str(part.as_str())?;
    }
    Ok(left)
}

/// What a jar answers after 181 Sets of one key.
fn replies_of_a_full_key(alloc: Global) -> Result<String, NoMemory> {
    let mut rows = Vec::new(alloc);
    add_sets(&mut rows, "h.test", 181)?;
    rows.push(get(200))?;
    all_replies(alloc, rows.as_slice())
}

#[test]
fn a_full_key_keeps_its_hundred_and_fifty_most_accessed(rt: HostRuntime) -> Result<(), Fail> {
    let text = replies_of_a_full_key(rt.alloc())?;
    let left = left_of_a_key(rt.alloc())?;
    assert!(rt; text.as_str().ends_with(left.as_str()));
    assert!(rt; !text.as_str().contains("n31 "));
    Ok(())
}

/// Nineteen hosts, whose cookies are too many for a jar at 174 each.
const HOSTS: [&str; 19] = [
    "a.test", "b.test", "c.test", "d.test", "e.test", "f.test", "g.test", "h.test", "i.test",
    "j.test", "k.test", "l.test", "m.test", "n.test", "o.test", "p.test", "q.test", "r.test",
    "s.test",
];

/// Sets of 174 cookies of each host.
pub fn full_jar(alloc: Global) -> Result<Vec<Row>, NoMemory> {
    let mut rows = Vec::new(alloc);
    for host in HOSTS {
        add_sets(&mut rows, host, 174)?;
    }
    Ok(rows)
}

/// What a jar answers that becomes whole, at a moment, with 174 cookies of each host.
fn replies_of_a_full_jar(alloc: Global, now: u64) -> Result<String, NoMemory> {
    let mut rows = full_jar(alloc)?;
    rows.push(count("a.test", 200))?;
    rows.push(whole(now))?;
    for host in ["a.test", "b.test", "c.test", "s.test"] {
        rows.push(count(host, now))?;
    }
    all_replies(alloc, rows.as_slice())
}

// Of 3,306 cookies 306 go: those numbered 1 to 16 of each host, and number 17 of the first two.
#[test]
fn a_full_jar_that_becomes_whole_keeps_three_thousand(rt: HostRuntime) -> Result<(), Fail> {
    let text = replies_of_a_full_jar(rt.alloc(), 2_592_000_175)?;
    assert!(rt; text.as_str().ends_with(";174;jar;157;157;158;158;"));
    Ok(())
}

// The cookies numbered 5 and above were accessed 30 days before or later, so they are fresh.
#[test]
fn a_full_jar_keeps_what_is_fresh(rt: HostRuntime) -> Result<(), Fail> {
    let text = replies_of_a_full_jar(rt.alloc(), 2_592_000_005)?;
    assert!(rt; text.as_str().ends_with(";174;jar;170;170;170;170;"));
    Ok(())
}

/// What a jar answers that becomes whole, at a moment, when the cookies of two hosts have expired, of which the lesser one
/// has the greater key.
fn replies_after_an_expiry(alloc: Global, now: u64) -> Result<String, NoMemory> {
    let mut rows = full_jar(alloc)?;
    for row in rows.as_mut_slice() {
        if row.host == "a.test" {
            row.key = "t.test";
            row.expiry = Some(1000);
        } else if row.host == "s.test" {
            row.expiry = Some(1000);
        }
    }
    rows.push(moving(whole(now)))?;
    for host in ["b.test", "r.test", "s.test"] {
        rows.push(count(host, now))?;
    }
    all_replies(alloc, rows.as_slice())
}

// Of 3,306 cookies 348 leave at their expiry, and the 2,958 others are few enough, stale as they are.
#[test]
fn a_full_jar_loses_its_expired_cookies_first(rt: HostRuntime) -> Result<(), Fail> {
    let text = replies_after_an_expiry(rt.alloc(), 2_592_000_175)?;
    assert!(rt; text.as_str().ends_with(";moved s.test t.test;174;174;0;"));
    Ok(())
}
