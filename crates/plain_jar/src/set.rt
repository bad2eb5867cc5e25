//! Set: a cookie is stored.

ghost use Rattle.std.specs.Prelude.{◌≡◌, IfOk, None};
ghost use Rattle.jar_types.specs.Sets as sets;

use crate::bar::barred;
use crate::by_id::ById;
use crate::changed::Changed;
use crate::content::Content;
use crate::evict::{swept, thinned};
use crate::purge::purged_of;
use crate::put::{Outcome, put};
use crate::stepped::Stepped;
use jar_types::{Cookie, Moment, NoMemory, Text};
use std::alloc::Global;

/// The key is purged; unless something bars it the cookie is put among the others, and what is too
/// much leaves. `script` says whether a script asks, `secure` whether the connection is.
///
/// RFC 6265, section 5.3, steps 11 and 12, and the 6265bis draft, section 5.7.
pub fn set(
    alloc: Global,
    content: &Content,
    now: Moment,
    cookie: &Cookie,
    script: bool,
    secure: bool,
) -> Result<Stepped, NoMemory>
    ensures { IfOk result (λ s. s ≡ sets.set_step content.now now cookie.now script secure) }
{
    let left = purged_of(alloc, content, &cookie.key, now)?;
    match barred(&left.cookies, cookie, script, secure) {
        Some(reply) => Ok(Stepped {
            content: content.with_cookies(alloc, left.cookies)?,
            reply,
            changes: left.changes,
        }),
        None => set_among(alloc, content, now, left, cookie),
    }
}

/// Puts a cookie among those of a purged key, and what is too much leaves.
fn set_among(
    alloc: Global,
    content: &Content,
    now: Moment,
    left: Changed,
    cookie: &Cookie,
) -> Result<Stepped, NoMemory>
    ensures { IfOk result (λ s. s ≡ sets.set_where None content.now now cookie.now left) }
{
    let Changed { cookies, changes } = left;
    let Outcome { all, reply } = put(alloc, cookies, now, cookie)?;
    let Changed { cookies, changes } = all.behind(changes)?;
    let tidy = tidied(alloc, content.loads.is_whole(), now, &cookie.key, cookies)?;
    let Changed { cookies, changes } = tidy.behind(changes)?;
    Ok(Stepped {
        content: content.with_cookies(alloc, cookies)?,
        reply,
        changes,
    })
}

/// The plan of a key is carried out, and where the jar is whole it is swept.
fn tidied(
    alloc: Global,
    whole: bool,
    now: Moment,
    key: &Text,
    cookies: ById,
) -> Result<Changed, NoMemory>
    ensures { IfOk result (λ left. left ≡ sets.tidied whole now key.now cookies) }
{
    let left = thinned(alloc, key, cookies)?;
    if whole {
        let Changed { cookies, changes } = left;
        swept(alloc, now, cookies)?.behind(changes)
    } else {
        Ok(left)
    }
}
