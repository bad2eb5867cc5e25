//! The rows that stand for cookies.

ghost use Rattle.std.specs.Prelude.{◌≡◌, IfOk, pos};
ghost use Rattle.jar_types.specs.Ids.{id_of};
ghost use Rattle.jar_types.specs.RowChanges.{same_row, same_rows};
ghost use Rattle.jar_types.specs.Rows as spec;

use jar_types::{Cookie, Moment, NoMemory, Priority, Row, SameSite};
use std::alloc::Global;

/// The row that stands for a cookie with this expiry.
///
/// This jar's own rule: docs/DEFINITIONS.md.
pub fn row_until(alloc: Global, cookie: &Cookie, expiry: Moment) -> Result<Row, NoMemory>
    ensures { IfOk result (λ row. row ≡ spec.row_until cookie.now expiry) }
{
    Ok(Row {
        host: cookie.host.copy(alloc)?,
        name: cookie.name.copy(alloc)?,
        path: cookie.path.copy(alloc)?,
        value: cookie.value.copy(alloc)?,
        creation: number_of_moment(cookie.creation),
        expiry: number_of_moment(expiry),
        access: number_of_moment(cookie.access),
        secure: i64::from(cookie.secure),
        http_only: i64::from(cookie.http_only),
        same_site: number_of_site(cookie.same_site),
        priority: number_of_priority(cookie.priority),
    })
}

/// Whether two cookies of one id have the same row, or both none. It takes no memory.
///
/// This jar's own rule: docs/DEFINITIONS.md.
pub fn has_same_row(c: &Cookie, d: &Cookie) -> bool
    requires { id_of c.now ≡ id_of d.now }
    ensures { result ≡ same_rows (spec.row_of c.now) (spec.row_of d.now) }
{
    match c.expiry {
        None => d.expiry.is_none(),
        Some(expiry) => match d.expiry {
            None => false,
            Some(other) => has_same_columns(c, expiry, d, other),
        },
    }
}

/// Whether the rows of two cookies of one id with these expiries are the same.
fn has_same_columns(c: &Cookie, expiry: Moment, d: &Cookie, other: Moment) -> bool
    requires { id_of c.now ≡ id_of d.now }
    ensures { result ≡ same_row (spec.row_until c.now expiry) (spec.row_until d.now other) }
{
    c.value == d.value
        && c.creation == d.creation
        && expiry == other
        && c.access == d.access
        && c.secure == d.secure
        && c.http_only == d.http_only
        && c.same_site == d.same_site
        && c.priority == d.priority
}

/// The number of a moment.
fn number_of_moment(moment: Moment) -> i64
    ensures { result ≡ pos moment }
{
    moment.ms() as i64
}

/// The number of a SameSite.
fn number_of_site(same_site: SameSite) -> i64
    ensures { result ≡ pos (spec.number_of_site same_site) }
{
    match same_site {
        SameSite::Unspecified => 0,
        SameSite::NoLimit => 1,
        SameSite::Lax => 2,
        SameSite::Strict => 3,
    }
}

/// The number of a priority.
fn number_of_priority(priority: Priority) -> i64
    ensures { result ≡ pos (spec.number_of_priority priority) }
{
    match priority {
        Priority::Low => 0,
        Priority::Medium => 1,
        Priority::High => 2,
    }
}
