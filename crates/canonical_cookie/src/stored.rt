//! Stored rows and cookies.

ghost use Rattle.std.specs.Prelude.{◌≡◌, true, pos, IfOk};
ghost use Rattle.public_suffix.specs.Suffix.{key_of};
ghost use Rattle.jar_values.specs.Hosts.{undotted};
ghost use Rattle.jar_types.specs.Rows as spec;

use crate::sound::{is_one, is_sound_row};
use jar_types::{Cookie, Row};
use jar_values::{MAX_MOMENT, Moment, NoMemory, Priority, SameSite, Text, undotted};
use public_suffix::Suffixes;
use std::alloc::Global;

/// The cookie that a row stands for, under the key of its host; none for a row that isn't sound.
///
/// This jar's own rule: docs/DEFINITIONS.md.
pub fn from_row(alloc: Global, suffixes: &Suffixes, row: &Row) -> Result<Option<Cookie>, NoMemory>
    ensures { IfOk result (λ c. c ≡ spec.cookie_of_row (key_of suffixes.now) row.now) }
{
    if !is_sound_row(row) {
        return Ok(None);
    }
    Ok(Some(cookie_in(alloc, suffixes, row)?))
}

/// The cookie of a row whose numbers are sound.
fn cookie_in(alloc: Global, suffixes: &Suffixes, row: &Row) -> Result<Cookie, NoMemory>
    requires { spec.has_sound_numbers row.now ≡ true }
    ensures { IfOk result
        (λ c. c ≡ spec.cookie_in (key_of suffixes.now (undotted row.now.host)) row.now) }
{
    Ok(Cookie {
        key: Text::of(alloc, suffixes.key(undotted(row.host.as_str())))?,
        host: row.host.copy(alloc)?,
        name: row.name.copy(alloc)?,
        path: row.path.copy(alloc)?,
        value: row.value.copy(alloc)?,
        creation: moment_of(row.creation),
        access: moment_of(row.access),
        expiry: Some(moment_of(row.expiry)),
        secure: is_one(row.secure),
        http_only: is_one(row.http_only),
        same_site: same_site_of(row.same_site),
        priority: priority_of(row.priority),
    })
}

/// The row that stands for a cookie; none for a session cookie.
///
/// This jar's own rule: docs/DEFINITIONS.md.
pub fn row_of(alloc: Global, cookie: &Cookie) -> Result<Option<Row>, NoMemory>
    ensures { IfOk result (λ r. r ≡ spec.row_of cookie.now) }
{
    match cookie.expiry {
        Some(expiry) => Ok(Some(row_until(alloc, cookie, expiry)?)),
        None => Ok(None),
    }
}

/// The row of a cookie with this expiry.
fn row_until(alloc: Global, cookie: &Cookie, expiry: Moment) -> Result<Row, NoMemory>
    ensures { IfOk result (λ r. r ≡ spec.row_until cookie.now expiry) }
{
    Ok(Row {
        host: cookie.host.copy(alloc)?,
        name: cookie.name.copy(alloc)?,
        path: cookie.path.copy(alloc)?,
        value: cookie.value.copy(alloc)?,
        creation: number_of_moment(cookie.creation),
        expiry: number_of_moment(expiry),
        access: number_of_moment(cookie.access),
        secure: i64::from(cookie.secure),
        http_only: i64::from(cookie.http_only),
        same_site: number_of_site(cookie.same_site),
        priority: number_of_priority(cookie.priority),
    })
}

/// The moment of a number that is one.
fn moment_of(number: i64) -> Moment
    requires { spec.is_up_to MAX_MOMENT number ≡ true }
    ensures { result ≡ spec.count_of number }
{
    Moment::of(number.unsigned_abs()).unwrap()
}

/// The number of a moment.
fn number_of_moment(moment: Moment) -> i64
    ensures { result ≡ pos moment }
{
    moment.ms() as i64
}

/// The SameSite of a number.
fn same_site_of(number: i64) -> SameSite
    ensures { result ≡ spec.site_of_number (spec.count_of number) }
{
    match number {
        1 => SameSite::NoLimit,
        2 => SameSite::Lax,
        3 => SameSite::Strict,
        _ => SameSite::Unspecified,
    }
}

/// The number of a SameSite.
fn number_of_site(same_site: SameSite) -> i64
    ensures { result ≡ pos (spec.number_of_site same_site) }
{
    match same_site {
        SameSite::Unspecified => 0,
        SameSite::NoLimit => 1,
        SameSite::Lax => 2,
        SameSite::Strict => 3,
    }
}

/// The priority of a number that isn't negative.
fn priority_of(number: i64) -> Priority
    requires { spec.is_up_to 2 number ≡ true }
    ensures { result ≡ spec.priority_of_number (spec.count_of number) }
{
    match number {
        0 => Priority::Low,
        1 => Priority::Medium,
        _ => Priority::High,
    }
}

/// The number of a priority.
fn number_of_priority(priority: Priority) -> i64
    ensures { result ≡ pos (spec.number_of_priority priority) }
{
    match priority {
        Priority::Low => 0,
        Priority::Medium => 1,
        Priority::High => 2,
    }
}

#[cfg(test)]
mod tests;
