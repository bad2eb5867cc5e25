//! Until when an answer may be kept.

ghost use Rattle.std.specs.Prelude.{◌≡◌, ◌≤◌, filter, filter_map, map, ◌+◌};
ghost use Rattle.jar_types.specs.Gets as gets;
ghost use Rattle.jar_types.specs.Purges as purges;
ghost use Rattle.jar_types.specs.declared.op.TheConstants.{REFRESH_AFTER as REFRESH};

use jar_types::{Cookie, MAX_MOMENT, REFRESH_AFTER, Text};

/// Until when an answer of a key's cookies may be kept, in milliseconds since 1970: the first of each
/// expiry of the key, and of a minute past each access in the answer.
///
/// This jar's own rule: docs/DEFINITIONS.md.
pub fn until(cookies: &[Cookie], key: &Text, answered: &[Cookie]) -> u64
    ensures { result ≡ gets.until (filter (purges.has_key key.now) cookies.now) answered.now }
{
    first_expiry(cookies, key).min(first_refresh(answered))
}

/// The first expiry of a key's cookies.
#[tactic(auto, using(crate::proofs::UntilLemmas::first_is_small))]
fn first_expiry(cookies: &[Cookie], key: &Text) -> u64
    ensures { result
        ≡ gets.first_of (filter_map (λ c. c.expiry) (filter (purges.has_key key.now) cookies.now)) }
{
    let mut first = MAX_MOMENT + 1;
    for cookie in cookies {
        if cookie.key == *key {
            if let Some(expiry) = cookie.expiry {
                first = first.min(expiry.ms());
            }
        }
    }
    first
}

/// The first moment at which an access in the answer is a minute old.
#[tactic(auto, using(crate::proofs::UntilLemmas::first_is_small))]
fn first_refresh(answered: &[Cookie]) -> u64
    ensures { result ≡ gets.first_of (map (λ c. c.access + REFRESH) answered.now) }
{
    let mut first = MAX_MOMENT + 1;
    for cookie in answered {
        first = first.min(cookie.access.ms() + REFRESH_AFTER);
    }
    first
}
