//! The order of changes.

ghost use Rattle.std.specs.Prelude.{◌≡◌};
ghost use Rattle.jar_types.specs.RowChanges as spec;

use jar_types::{RowChange, Text};
use std::cmp::Ordering;

/// The order of the ids of two changes: by host, then name, then path.
///
/// This jar's own rule: docs/DEFINITIONS.md.
pub fn change_cmp(c: &RowChange, d: &RowChange) -> Ordering
    ensures { result ≡ spec.change_cmp c.now d.now }
{
    let by_path = path_of(c).cmp(path_of(d));
    host_of(c)
        .cmp(host_of(d))
        .then(name_of(c).cmp(name_of(d)).then(by_path))
}

/// The host of the id of a change.
fn host_of(change: &RowChange) -> &Text
    ensures { result.now ≡ (spec.change_id change.now).host }
{
    match change {
        RowChange::Put(row) => &row.host,
        RowChange::Drop(id) => &id.host,
    }
}

/// The name of the id of a change.
fn name_of(change: &RowChange) -> &Text
    ensures { result.now ≡ (spec.change_id change.now).name }
{
    match change {
        RowChange::Put(row) => &row.name,
        RowChange::Drop(id) => &id.name,
    }
}

/// The path of the id of a change.
fn path_of(change: &RowChange) -> &Text
    ensures { result.now ≡ (spec.change_id change.now).path }
{
    match change {
        RowChange::Put(row) => &row.path,
        RowChange::Drop(id) => &id.path,
    }
}
