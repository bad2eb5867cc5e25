//! All and Clear: ops on all cookies of a jar that is whole.

ghost use Rattle.std.specs.Prelude.{◌≡◌, IfOk, map};
ghost use Rattle.jar_types.specs.Changes as changes;
ghost use Rattle.jar_types.specs.Wholes as wholes;

use crate::by_id::ById;
use crate::changed::Changed;
use crate::content::Content;
use crate::evict::all_purged;
use crate::stepped::Stepped;
use jar_types::{Cause, Change, Cookies, Moment, NoMemory, Reply};
use std::alloc::Global;

/// The expired cookies leave, and the others are listed in the order of their ids.
///
/// This jar's own rule: docs/DEFINITIONS.md.
pub fn all(alloc: Global, content: &Content, now: Moment) -> Result<Stepped, NoMemory>
    ensures { IfOk result (λ s. s ≡ wholes.all_step content.now now) }
{
    let Changed { cookies, changes } = all_purged(alloc, content.cookies.copy(alloc)?, now)?;
    let listed = Cookies::from_vec(cookies.copy(alloc)?.into_vec());
    Ok(Stepped {
        content: content.with_cookies(alloc, cookies)?,
        reply: Reply::Cookies(listed),
        changes,
    })
}

/// The expired cookies leave, and then all others, which the reply counts.
///
/// This jar's own rule: docs/DEFINITIONS.md.
pub fn clear(alloc: Global, content: &Content, now: Moment) -> Result<Stepped, NoMemory>
    ensures { IfOk result (λ s. s ≡ wholes.clear_step content.now now) }
{
    let Changed { cookies, changes } = all_purged(alloc, content.cookies.copy(alloc)?, now)?;
    let count = cookies.as_slice().len() as u64;
    let Changed { cookies, changes } = cleared(alloc, cookies)?.behind(changes)?;
    Ok(Stepped {
        content: content.with_cookies(alloc, cookies)?,
        reply: Reply::Count(count),
        changes,
    })
}

/// No cookie is left of these, and how they left.
fn cleared(alloc: Global, cookies: ById) -> Result<Changed, NoMemory>
    ensures { IfOk result (λ left. left ≡ wholes.cleared cookies) }
{
    Ok(Changed {
        cookies: ById::new(alloc),
        changes: removals_of(alloc, cookies)?,
    })
}

/// The changes by which these cookies leave that a caller takes away.
fn removals_of(alloc: Global, cookies: ById) -> Result<Vec<Change>, NoMemory>
    ensures { IfOk result (λ all. all.items ≡ map changes.taken_away cookies) }
{
    let mut all = Vec::new(alloc);
    for cookie in cookies.into_vec() {
        all.push(Change {
            cause: Cause::Explicit,
            cookie,
        })?;
    }
    Ok(all)
}
