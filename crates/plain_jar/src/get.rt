//! Get: the cookies of a request.

ghost use Rattle.std.specs.Prelude.{◌≡◌, ◌-◌, ◌^◌, IfOk, filter, map};
ghost use Rattle.jar_types.specs.Bound.{turned, version_of};
ghost use Rattle.jar_types.specs.Counts.{VersionsUpTo};
ghost use Rattle.jar_types.specs.Answers.{answer as answer_of};
ghost use Rattle.jar_types.specs.Gets.{get_step, get_reply, refreshed, served as served_one};
ghost use Rattle.jar_types.specs.Purges.{has_key};

use crate::access::{refresh_all, served};
use crate::answer::answer;
use crate::changed::Changed;
use crate::content::Content;
use crate::purge::purged_of;
use crate::stepped::Stepped;
use crate::text::answer_text;
use crate::until::until;
use crate::version::version_behind;
use jar_types::{Cookie, Cookies, Moment, NoMemory, Reply, Request};
use std::alloc::Global;

/// The key is purged, the answer is taken, and the cookies in it are refreshed, in the reply too.
///
/// RFC 6265, section 5.4.
pub fn get(
    alloc: Global,
    content: &Content,
    now: Moment,
    request: &Request,
) -> Result<Stepped, NoMemory>
    requires { VersionsUpTo (2 ^ 64 - 2) content.now.bound }
    ensures { IfOk result (λ s. s ≡ get_step content.now now request.now) }
{
    let left = purged_of(alloc, content, &request.key, now)?;
    let answered = refreshed_answer(alloc, &left, request, now)?;
    let reply = reply_to(alloc, content, request, &left, answered)?;
    served_with(alloc, content, now, request, left, reply)
}

/// The cookies that a request gets of those that a purge left, refreshed.
fn refreshed_answer(
    alloc: Global,
    left: &Changed,
    request: &Request,
    now: Moment,
) -> Result<Vec<Cookie>, NoMemory>
    ensures { IfOk result (λ answered. answered.items
        ≡ map (refreshed now) (answer_of left.now.cookies request.now now)) }
{
    let mut answered = answer(alloc, &left.cookies, request, now)?;
    refresh_all(answered.as_mut_slice(), now);
    Ok(answered)
}

/// What a Get leads to, of the cookies that a purge left.
fn served_with(
    alloc: Global,
    content: &Content,
    now: Moment,
    request: &Request,
    left: Changed,
    reply: Reply,
) -> Result<Stepped, NoMemory>
    ensures { IfOk result (λ s. s ≡ record {
      state = record content.now { cookies = map (served_one request.now now) left.cookies };
      reply = reply;
      changes = left.changes;
    }) }
{
    let Changed { cookies, changes } = left;
    Ok(Stepped {
        content: content.with_cookies(alloc, served(cookies, request, now))?,
        reply,
        changes,
    })
}

/// The reply to a request that is answered with these cookies, of those that a purge left.
fn reply_to(
    alloc: Global,
    content: &Content,
    request: &Request,
    left: &Changed,
    answered: Vec<Cookie>,
) -> Result<Reply, NoMemory>
    requires { VersionsUpTo (2 ^ 64 - 2) content.now.bound }
    ensures { IfOk result (λ reply. reply
        ≡ get_reply request.now.script (filter (has_key request.now.key) left.now.cookies)
        answered.items (version_of request.now.key (map (turned left.now.changes) content.now.bound))) }
{
    if !request.script {
        return Ok(Reply::Cookies(Cookies::from_vec(answered)));
    }
    Ok(Reply::Script {
        text: answer_text(alloc, answered.as_slice())?,
        version: version_behind(&content.bound, &request.key, left.changes.as_slice()),
        until: until(left.cookies.as_slice(), &request.key, answered.as_slice()),
    })
}
