//! What a new cookie comes to among the others.

ghost use Rattle.std.specs.Prelude.{◌≡◌, IfOk, Some, [], option_copied};
ghost use Rattle.jar_types.specs.Sets as sets;

use crate::by_id::ById;
use crate::changed::Changed;
use crate::eligible::is_expired;
use jar_types::{Cause, Change, Cookie, Moment, NoMemory, Reply};
use std::alloc::Global;

/// What a new cookie makes of the others, and the reply to it.
#[derive(Drop)]
pub struct Outcome {
    pub all: Changed,
    pub reply: Reply,
}

/// A new cookie is stored, and in the place of an old one it keeps that one's creation. One that has
/// expired takes the old one away.
///
/// RFC 6265, section 5.3, steps 11 and 12.
pub fn put(alloc: Global, left: ById, now: Moment, cookie: &Cookie) -> Result<Outcome, NoMemory>
    ensures all { IfOk result (λ p. p.all ≡ (sets.put now cookie.now left).all) }
    ensures reply { IfOk result (λ p. p.reply ≡ (sets.put now cookie.now left).reply) }
{
    if is_expired(cookie, now) {
        removed_over(alloc, left, cookie)
    } else {
        set_over(alloc, left, cookie)
    }
}

/// Puts a cookie that lives among the others.
fn set_over(alloc: Global, left: ById, cookie: &Cookie) -> Result<Outcome, NoMemory>
    ensures all { IfOk result (λ p. p.all
        ≡ sets.set_over (sets.old_of cookie.now left) cookie.now left) }
    ensures reply { IfOk result (λ p. p.reply ≡ sets.set_reply (sets.old_of cookie.now left)) }
{
    let old = left.old_of(cookie);
    let new = kept_over(alloc, old, cookie)?;
    let changes = changes_over(alloc, old, &new)?;
    let reply = set_reply(old);
    Ok(Outcome {
        all: Changed {
            cookies: left.with(alloc, new)?,
            changes,
        },
        reply,
    })
}

/// A copy of a cookie as it is stored: in the place of an old one it keeps that one's creation.
fn kept_over(alloc: Global, old: Option<&Cookie>, cookie: &Cookie) -> Result<Cookie, NoMemory>
    ensures { IfOk result (λ new. new ≡ sets.kept_over (option_copied old.entry) cookie.now) }
{
    let mut new = cookie.copy(alloc)?;
    if let Some(old) = old {
        new.creation = old.creation;
    }
    Ok(new)
}

/// The old cookie leaves, where there is one, and the new one comes.
fn changes_over(alloc: Global, old: Option<&Cookie>, new: &Cookie) -> Result<Vec<Change>, NoMemory>
    ensures { IfOk result (λ all. all.items ≡ sets.changes_over (option_copied old.entry) new.now) }
{
    let mut all = Vec::new(alloc);
    if let Some(old) = old {
        all.push(Change {
            cause: Cause::Overwrite,
            cookie: old.copy(alloc)?,
        })?;
    }
    all.push(Change {
        cause: Cause::Inserted,
        cookie: new.copy(alloc)?,
    })?;
    Ok(all)
}

/// Whether a new id was stored.
fn set_reply(old: Option<&Cookie>) -> Reply
    ensures { result ≡ sets.set_reply (option_copied old.entry) }
{
    match old {
        None => Reply::Stored,
        Some(_) => Reply::Replaced,
    }
}

/// Takes the old cookie of a new one's id away.
fn removed_over(alloc: Global, left: ById, cookie: &Cookie) -> Result<Outcome, NoMemory>
    ensures all { IfOk result (λ p. p.all
        ≡ sets.removed_over (sets.old_of cookie.now left) cookie.now left) }
    ensures reply { IfOk result (λ p. p.reply ≡ sets.removed_reply (sets.old_of cookie.now left)) }
{
    let changes = match left.old_of(cookie) {
        Some(old) => removal_of(alloc, old)?,
        None => {
            return Ok(Outcome {
                all: Changed::unchanged(alloc, left),
                reply: Reply::NothingThere,
            });
        }
    };
    Ok(Outcome {
        all: Changed {
            cookies: left.without(cookie),
            changes,
        },
        reply: Reply::Removed,
    })
}

/// The change by which an old cookie leaves for a new one of its id that has expired.
fn removal_of(alloc: Global, old: &Cookie) -> Result<Vec<Change>, NoMemory>
    ensures { IfOk result (λ all. all.items ≡ (sets.removed_over (Some old.now) old.now []).changes) }
{
    let mut all = Vec::new(alloc);
    all.push(Change {
        cause: Cause::ExpiredOverwrite,
        cookie: old.copy(alloc)?,
    })?;
    Ok(all)
}
