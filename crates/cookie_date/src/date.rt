//! Cookie dates.

ghost use Rattle.std.specs.Prelude.{◌≡◌};
ghost use Rattle.cookie_date.specs.Token as token;
ghost use Rattle.cookie_date.specs.Date as spec;

use crate::calendar::moment_of_parts;
use crate::parts::{NO_PARTS, with_token};
use jar_values::Moment;

/// The moment that the bytes name as a cookie date, which is 0 before 1970; none where they name
/// none.
///
/// Each part of the date is its first token: the time, then the day of the month, the month and the
/// year among the tokens that are left.
///
/// RFC 6265, section 5.1.1.
pub fn cookie_date(bytes: &[u8]) -> Option<Moment>
    ensures { result ≡ spec.date bytes.now }
{
    let mut parts = NO_PARTS;
    for token in bytes.split(|byte| is_delimiter(*byte)) {
        parts = with_token(parts, token);
    }
    moment_of_parts(parts)
}

/// Whether a byte stands between tokens.
///
/// RFC 6265, section 5.1.1: `delimiter`.
fn is_delimiter(byte: u8) -> bool
    ensures { result ≡ token.is_delimiter byte }
{
    matches!(byte, 0x09 | 0x20..=0x2F | 0x3B..=0x40 | 0x5B..=0x60 | 0x7B..=0x7E)
}

#[cfg(test)]
mod tests;
