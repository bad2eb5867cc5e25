//! When a new cookie expires.

ghost use Rattle.std.specs.Prelude.{◌≡◌};
ghost use Rattle.canonical_cookie.specs.Expiry as spec;

use jar_values::{MAX_MOMENT, Moment};
use set_cookie_line::Line;

/// The most milliseconds that a cookie lives after it is set: 400 days.
///
/// The 6265bis draft, section 5.5.
pub const LONGEST_LIFE: u64 = 34_560_000_000;

/// The expiry of a line's cookie that is set now; none for a session cookie.
///
/// The 6265bis draft, sections 5.5 and 5.7.
pub fn expiry_of(line: &Line, now: Moment) -> Option<Moment>
    ensures { result ≡ spec.expiry_of line.now now }
{
    match (line.max_age, line.expires) {
        (Some(seconds), _) => Some(capped(now, after_seconds(now, seconds))),
        (None, Some(expires)) => Some(capped(now, expires.ms())),
        (None, None) => None,
    }
}

/// The milliseconds since 1970 so many seconds after a moment, and 0 for none.
fn after_seconds(now: Moment, seconds: u32) -> u64
    ensures { result ≡ spec.after_seconds now seconds }
{
    if seconds == 0 {
        0
    } else {
        now.ms() + u64::from(seconds) * 1000
    }
}

/// The moment of these milliseconds since 1970, or the last that a cookie lives to.
fn capped(now: Moment, ms: u64) -> Moment
    ensures { result ≡ spec.capped now ms }
{
    let last = (now.ms() + LONGEST_LIFE).min(MAX_MOMENT);
    Moment::of(ms.min(last)).unwrap()
}
