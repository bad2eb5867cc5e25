//! The orders of rows.

ghost use Rattle.std.specs.Prelude.{◌≡◌};
ghost use Rattle.jar_types.specs.Ids.{id_cmp};
ghost use Rattle.jar_types.specs.RowChanges as rows;

use jar_types::{CookieId, Row};
use std::cmp::Ordering;

/// The order of the ids of two rows: by host, then name, then path.
pub fn row_cmp(row: &Row, other: &Row) -> Ordering
    ensures { result ≡ rows.row_cmp row.now other.now }
{
    row.host
        .cmp(&other.host)
        .then(row.name.cmp(&other.name).then(row.path.cmp(&other.path)))
}

/// The order of an id and that of a row.
pub fn id_order(id: &CookieId, row: &Row) -> Ordering
    ensures { result ≡ id_cmp id.now (rows.row_id row.now) }
{
    id.host
        .cmp(&row.host)
        .then(id.name.cmp(&row.name).then(id.path.cmp(&row.path)))
}
