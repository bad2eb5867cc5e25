//! The orders of cookies.

ghost use Rattle.std.specs.Prelude.{◌≡◌};
ghost use Rattle.jar_types.specs.Answers as answers;
ghost use Rattle.jar_types.specs.Ids as ids;
ghost use Rattle.jar_types.specs.RowChanges as rows;

use jar_types::{Cookie, CookieId, Row, RowChange};
use std::cmp::Ordering;

/// The order of the ids of two cookies: by host, then name, then path.
pub fn cookie_cmp(c: &Cookie, d: &Cookie) -> Ordering
    ensures { result ≡ ids.cookie_cmp c.now d.now }
{
    c.host
        .cmp(&d.host)
        .then(c.name.cmp(&d.name).then(c.path.cmp(&d.path)))
}

/// The order of an id and that of a cookie.
pub fn id_order(id: &CookieId, c: &Cookie) -> Ordering
    ensures { result ≡ ids.id_cmp id.now (ids.id_of c.now) }
{
    id.host
        .cmp(&c.host)
        .then(id.name.cmp(&c.name).then(id.path.cmp(&c.path)))
}

/// The order of an id and that of a change of the stored rows.
pub fn change_order(id: &CookieId, change: &RowChange) -> Ordering
    ensures { result ≡ ids.id_cmp id.now (rows.change_id change.now) }
{
    match change {
        RowChange::Put(row) => row_order(id, row),
        RowChange::Drop(other) => id.order(other),
    }
}

/// The order of an id and that of a row.
fn row_order(id: &CookieId, row: &Row) -> Ordering
    ensures { result ≡ ids.id_cmp id.now (rows.row_id row.now) }
{
    id.host
        .cmp(&row.host)
        .then(id.name.cmp(&row.name).then(id.path.cmp(&row.path)))
}

/// The order of two cookies in an answer: longer paths first, then earlier creations, then lesser
/// ids.
pub fn answer_cmp(c: &Cookie, d: &Cookie) -> Ordering
    ensures { result ≡ answers.answer_cmp c.now d.now }
{
    let by_path = d.path.as_str().len().cmp(&c.path.as_str().len());
    by_path.then(c.creation.cmp(&d.creation).then(cookie_cmp(c, d)))
}
