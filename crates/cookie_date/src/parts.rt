//! The parts of a date, each taken once.

ghost use Rattle.std.specs.Prelude.{◌≡◌};
ghost use Rattle.cookie_date.specs.Parts.{FitParts};
ghost use Rattle.cookie_date.specs.Parts as spec;

use crate::token::{Time, read_day, read_month, read_time, read_year};

/// The parts of a date that were found.
#[derive(Clone, Copy)]
pub struct Parts {
    pub time: Option<Time>,
    pub day: Option<u16>,
    pub month: Option<u8>,
    pub year: Option<u16>,
}

/// No parts.
pub const NO_PARTS: Parts = Parts {
    time: None,
    day: None,
    month: None,
    year: None,
};

/// The parts with one token more, which is the first missing part that it can be.
///
/// RFC 6265, section 5.1.1.
#[tactic(auto, unfolding(crate::specs::Parts::with_token))]
pub fn with_token(mut parts: Parts, token: &[u8]) -> Parts
    requires { FitParts parts }
    ensures value { result ≡ spec.with_token parts token.now }
    ensures fit { FitParts result }
{
    if parts.time.is_none()
        && let Some(time) = read_time(token)
    {
        parts.time = Some(time);
        return parts;
    }
    if parts.day.is_none()
        && let Some(day) = read_day(token)
    {
        parts.day = Some(day);
        return parts;
    }
    if parts.month.is_none()
        && let Some(month) = read_month(token)
    {
        parts.month = Some(month);
        return parts;
    }
    if parts.year.is_none()
        && let Some(year) = read_year(token)
    {
        parts.year = Some(year);
        return parts;
    }
    parts
}
