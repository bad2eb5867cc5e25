//! Which cookies have expired, and which a request gets.

ghost use Rattle.std.specs.Prelude.{◌≡◌};
ghost use Rattle.jar_types.specs.Answers as answers;
ghost use Rattle.jar_types.specs.Purges as purges;

use jar_types::{Cookie, Moment, Request, Text};
use site_match::matches;

/// Whether a cookie has expired.
///
/// RFC 6265, section 5.3.
pub fn is_expired(cookie: &Cookie, now: Moment) -> bool
    ensures { result ≡ purges.is_expired now cookie.now }
{
    match cookie.expiry {
        None => false,
        Some(expiry) => expiry <= now,
    }
}

/// Whether a cookie is kept under a key, and has expired.
///
/// This jar's own rule: docs/DEFINITIONS.md.
pub fn is_spent(cookie: &Cookie, key: &Text, now: Moment) -> bool
    ensures { result ≡ purges.is_spent key.now now cookie.now }
{
    cookie.key == *key && is_expired(cookie, now)
}

/// Whether a cookie is in the answer to a request.
///
/// RFC 6265, section 5.4, step 1.
pub fn is_answered(request: &Request, cookie: &Cookie, now: Moment) -> bool
    ensures { result ≡ answers.is_answered request.now now cookie.now }
{
    matches(request, cookie, now) && !is_expired(cookie, now)
}
