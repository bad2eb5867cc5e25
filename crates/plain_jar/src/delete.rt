//! Delete: a caller takes a cookie away.

ghost use Rattle.std.specs.Prelude.{◌≡◌, ◌∷◌, [], IfOk, find, option_copied};
ghost use Rattle.jar_types.specs.Changes as changes;
ghost use Rattle.jar_types.specs.Deletes as deletes;
ghost use Rattle.jar_types.specs.RowChanges.{has_id};

use crate::by_id::ById;
use crate::changed::Changed;
use crate::content::Content;
use crate::purge::purged_of;
use crate::stepped::Stepped;
use jar_types::{Cause, Change, Cookie, CookieId, Moment, NoMemory, Reply, Text};
use std::alloc::Global;

/// The key is purged, and the cookie of an id leaves.
///
/// This jar's own rule: docs/DEFINITIONS.md.
pub fn delete(
    alloc: Global,
    content: &Content,
    now: Moment,
    key: &Text,
    id: &CookieId,
) -> Result<Stepped, NoMemory>
    ensures { IfOk result (λ s. s ≡ deletes.delete_step content.now now key.now id.now) }
{
    let Changed { cookies, changes } = purged_of(alloc, content, key, now)?;
    let reply = Reply::Flag(cookies.with_id(id).is_some());
    let Changed { cookies, changes } = deleted(alloc, cookies, id)?.behind(changes)?;
    Ok(Stepped {
        content: content.with_cookies(alloc, cookies)?,
        reply,
        changes,
    })
}

/// The cookies without the one of an id, and how it left.
fn deleted(alloc: Global, cookies: ById, id: &CookieId) -> Result<Changed, NoMemory>
    ensures { IfOk result (λ left. left
        ≡ deletes.deleted_where (find (has_id id.now) cookies) id.now cookies) }
{
    let changes = match cookies.with_id(id) {
        Some(old) => deletion_of(alloc, old)?,
        None => return Ok(Changed::unchanged(alloc, cookies)),
    };
    Ok(Changed {
        cookies: cookies.without_id(id),
        changes,
    })
}

/// The change by which a cookie leaves that a caller takes away.
fn deletion_of(alloc: Global, cookie: &Cookie) -> Result<Vec<Change>, NoMemory>
    ensures { IfOk result (λ all. all.items ≡ changes.taken_away cookie.now ∷ []) }
{
    let mut all = Vec::new(alloc);
    all.push(Change {
        cause: Cause::Explicit,
        cookie: cookie.copy(alloc)?,
    })?;
    Ok(all)
}
