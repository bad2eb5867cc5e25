//! Purge: the expired cookies of a key leave.

ghost use Rattle.std.specs.Prelude.{◌≡◌, IfOk, map, filter};
ghost use Rattle.jar_types.specs.Changes as changes;
ghost use Rattle.jar_types.specs.Purges as purges;

use crate::by_id::ById;
use crate::changed::Changed;
use crate::content::Content;
use crate::eligible::is_spent;
use jar_types::{Cause, Change, Cookie, Moment, NoMemory, Text};
use std::alloc::Global;

/// The cookies of a content without those of a key that have expired, and how these left.
///
/// This jar's own rule: docs/DEFINITIONS.md.
pub fn purged_of(
    alloc: Global,
    content: &Content,
    key: &Text,
    now: Moment,
) -> Result<Changed, NoMemory>
    ensures { IfOk result (λ left. left ≡ purges.purge key.now now content.now.cookies) }
{
    purged(alloc, content.cookies.copy(alloc)?, key, now)
}

/// The cookies without those of a key that have expired, and how these left.
fn purged(alloc: Global, cookies: ById, key: &Text, now: Moment) -> Result<Changed, NoMemory>
    ensures { IfOk result (λ left. left ≡ purges.purge key.now now cookies) }
{
    let changes = expiries(alloc, cookies.as_slice(), key, now)?;
    Ok(Changed {
        cookies: without_spent(cookies, key, now),
        changes,
    })
}

/// The changes by which the expired cookies of a key leave.
fn expiries(
    alloc: Global,
    cookies: &[Cookie],
    key: &Text,
    now: Moment,
) -> Result<Vec<Change>, NoMemory>
    ensures { IfOk result (λ gone. gone.items
        ≡ map changes.expired (filter (purges.is_spent key.now now) cookies.now)) }
{
    let mut gone = Vec::new(alloc);
    for cookie in cookies {
        if is_spent(cookie, key, now) {
            gone.push(expired(alloc, cookie)?)?;
        }
    }
    Ok(gone)
}

/// The change by which a cookie leaves at its expiry.
pub fn expired(alloc: Global, cookie: &Cookie) -> Result<Change, NoMemory>
    ensures { IfOk result (λ change. change ≡ changes.expired cookie.now) }
{
    Ok(Change {
        cause: Cause::Expired,
        cookie: cookie.copy(alloc)?,
    })
}

/// The cookies without those of a key that have expired.
#[tactic(auto, using(jar_types::proofs::RisingLemmas::purged_rises))]
fn without_spent(cookies: ById, key: &Text, now: Moment) -> ById
    ensures { result ≡ purges.purged key.now now cookies }
{
    let mut left = cookies.into_vec();
    take_out_spent(&mut left, key, now);
    ById::from_vec(left)
}

/// Takes out the cookies of a key that have expired.
fn take_out_spent(cookies: &mut Vec<Cookie>, key: &Text, now: Moment)
    ensures { cookies.new.items ≡ purges.purged key.now now cookies.old.items }
{
    cookies.retain(|cookie| !is_spent(cookie, key, now));
}
