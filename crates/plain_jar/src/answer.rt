//! The answer to a request.

ghost use Rattle.std.specs.Prelude.{◌≡◌, IfOk, filter};
ghost use Rattle.jar_types.specs.Answers as answers;
ghost use Rattle.plain_jar.specs.AnswerLaws.{AnswersAreOrdered};

use crate::by_id::ById;
use crate::eligible::is_answered;
use crate::order::answer_cmp;
use jar_types::{Cookie, Moment, NoMemory, Request};
use std::alloc::Global;

/// The cookies that a request gets, in their order.
///
/// RFC 6265, section 5.4, step 2.
pub fn answer(
    alloc: Global,
    cookies: &ById,
    request: &Request,
    now: Moment,
) -> Result<Vec<Cookie>, NoMemory>
    ensures { IfOk result (λ listed. listed.items ≡ answers.answer cookies.now request.now now) }
{
    let mut listed = found(alloc, cookies.as_slice(), request, now)?;
    listed.sort_unstable_by(answer_cmp);
    Ok(listed)
}

/// The cookies that a request gets, as they stand.
fn found(
    alloc: Global,
    cookies: &[Cookie],
    request: &Request,
    now: Moment,
) -> Result<Vec<Cookie>, NoMemory>
    ensures { IfOk result (λ found. found.items
        ≡ filter (answers.is_answered request.now now) cookies.now) }
{
    let mut found = Vec::new(alloc);
    for cookie in cookies {
        if is_answered(request, cookie, now) {
            found.push(cookie.copy(alloc)?)?;
        }
    }
    Ok(found)
}

/// The answer to a request has the cookies that it gets in one order, and no other list has: longer
/// paths come first, then earlier creations, then lesser ids.
pub fn answers_are_ordered()
    ensures { AnswersAreOrdered }
{}
