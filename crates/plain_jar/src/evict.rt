//! Evictions: the cookies that leave where a key or the jar has too many.

ghost use Rattle.std.specs.Prelude.{◌≡◌, IfOk, filter, map, not};
ghost use Rattle.std.specs.List.{list_any};
ghost use Rattle.jar_types.specs.Changes as changes;
ghost use Rattle.jar_types.specs.Evictions as evictions;
ghost use Rattle.jar_types.specs.Ids as ids;
ghost use Rattle.jar_types.specs.Purges as purges;

use crate::by_id::ById;
use crate::changed::Changed;
use crate::eligible::is_expired;
use crate::order::cookie_cmp;
use crate::plan::{gone_of_jar, gone_of_key};
use crate::purge::expired;
use jar_types::{Cause, Change, Cookie, MOST_OF_JAR, Moment, NoMemory, Text};
use std::alloc::Global;

/// The cookies without those that the plan of a key takes away.
///
/// This jar's own rule: docs/DEFINITIONS.md.
pub fn thinned(alloc: Global, key: &Text, cookies: ById) -> Result<Changed, NoMemory>
    ensures { IfOk result (λ left. left ≡ evictions.thinned key.now cookies) }
{
    let gone = gone_of_key(alloc, cookies.as_slice(), key)?;
    evicted(alloc, cookies, gone)
}

/// The cookies after a sweep: where there are too many, the expired ones leave, and then those that
/// the plan of the jar takes away.
///
/// This jar's own rule: docs/DEFINITIONS.md.
pub fn swept(alloc: Global, now: Moment, cookies: ById) -> Result<Changed, NoMemory>
    ensures { IfOk result (λ left. left ≡ evictions.swept now cookies) }
{
    if cookies.as_slice().len() <= MOST_OF_JAR {
        return Ok(Changed::unchanged(alloc, cookies));
    }
    let Changed { cookies, changes } = all_purged(alloc, cookies, now)?;
    let gone = gone_of_jar(alloc, cookies.as_slice(), now)?;
    evicted(alloc, cookies, gone)?.behind(changes)
}

/// The cookies without all that have expired, and how these left.
///
/// This jar's own rule: docs/DEFINITIONS.md.
pub fn all_purged(alloc: Global, cookies: ById, now: Moment) -> Result<Changed, NoMemory>
    ensures { IfOk result (λ left. left ≡ evictions.all_purged now cookies) }
{
    let changes = all_expiries(alloc, cookies.as_slice(), now)?;
    Ok(Changed {
        cookies: without_expired(cookies, now),
        changes,
    })
}

/// The cookies without these.
fn evicted(alloc: Global, cookies: ById, gone: Vec<Cookie>) -> Result<Changed, NoMemory>
    ensures { IfOk result (λ left. left ≡ evictions.evict gone.items cookies) }
{
    Ok(Changed {
        cookies: without(cookies, gone.as_slice()),
        changes: evictions_of(alloc, gone)?,
    })
}

/// The changes by which these cookies leave.
fn evictions_of(alloc: Global, gone: Vec<Cookie>) -> Result<Vec<Change>, NoMemory>
    ensures { IfOk result (λ all. all.items ≡ map changes.evicted gone.items) }
{
    let mut all = Vec::new(alloc);
    for cookie in gone {
        all.push(Change {
            cause: Cause::Evicted,
            cookie,
        })?;
    }
    Ok(all)
}

/// The cookies without these.
#[tactic(auto, using(jar_types::proofs::RisingLemmas::evict_rises))]
fn without(cookies: ById, gone: &[Cookie]) -> ById
    ensures { result ≡ (evictions.evict gone.now cookies).cookies }
{
    if gone.is_empty() {
        return cookies;
    }
    let mut left = cookies.into_vec();
    take_away(&mut left, gone);
    ById::from_vec(left)
}

/// Takes these cookies out.
fn take_away(cookies: &mut Vec<Cookie>, gone: &[Cookie])
    ensures { cookies.new.items ≡ (evictions.evict gone.now cookies.old.items).cookies }
{
    cookies.retain(|cookie| !has_same_id(gone, cookie));
}

/// Whether one of these cookies has the id of another.
fn has_same_id(cookies: &[Cookie], cookie: &Cookie) -> bool
    ensures { result ≡ list_any (ids.same_id cookie.now) cookies.now }
{
    cookies
        .iter()
        .any(|other| cookie_cmp(cookie, other).is_eq())
}

/// The changes by which all leave that have expired.
fn all_expiries(alloc: Global, cookies: &[Cookie], now: Moment) -> Result<Vec<Change>, NoMemory>
    ensures { IfOk result (λ gone. gone.items
        ≡ map changes.expired (filter (purges.is_expired now) cookies.now)) }
{
    let mut gone = Vec::new(alloc);
    for cookie in cookies {
        if is_expired(cookie, now) {
            gone.push(expired(alloc, cookie)?)?;
        }
    }
    Ok(gone)
}

/// The cookies without all that have expired.
#[tactic(auto, using(jar_types::proofs::RisingLemmas::all_purged_rises))]
fn without_expired(cookies: ById, now: Moment) -> ById
    ensures { result ≡ (evictions.all_purged now cookies).cookies }
{
    let mut left = cookies.into_vec();
    purge_all(&mut left, now);
    ById::from_vec(left)
}

/// Takes out the cookies that have expired.
fn purge_all(cookies: &mut Vec<Cookie>, now: Moment)
    ensures { cookies.new.items ≡ (evictions.all_purged now cookies.old.items).cookies }
{
    cookies.retain(|cookie| !is_expired(cookie, now));
}
