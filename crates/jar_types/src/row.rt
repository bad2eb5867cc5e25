//! Stored rows.

ghost use Rattle.std.specs.Prelude.{◌≡◌, IfOk};

use crate::cookie::CookieId;
use jar_values::{Copied, Listed, NoMemory, Text};
use std::alloc::Global;

/// A row of the store, as it is found there: it stands for a cookie only where it is sound.
///
/// `host`, `name`, `path` and `value` are those of the cookie. `creation`, `expiry` and `access` are
/// milliseconds since 1970. `secure` and `http_only` are 0 or 1. `same_site` is 0 for an unspecified one,
/// 1 for None, 2 for Lax and 3 for Strict. `priority` is 0 for Low, 1 for Medium and 2 for High.
///
/// This jar's own rule: docs/DEFINITIONS.md.
#[derive(Drop)]
pub struct Row {
    pub host: Text,
    pub name: Text,
    pub path: Text,
    pub value: Text,
    pub creation: i64,
    pub expiry: i64,
    pub access: i64,
    pub secure: i64,
    pub http_only: i64,
    pub same_site: i64,
    pub priority: i64,
}

/// Rows, seen as their list.
pub type Rows = Listed<Row>;

impl Row {
    /// The same row again.
    pub fn copy(&self, alloc: Global) -> Result<Row, NoMemory>
        ensures { IfOk result (λ row. row ≡ self.now) }
    {
        Ok(Row {
            host: self.host.copy(alloc)?,
            name: self.name.copy(alloc)?,
            path: self.path.copy(alloc)?,
            value: self.value.copy(alloc)?,
            creation: self.creation,
            expiry: self.expiry,
            access: self.access,
            secure: self.secure,
            http_only: self.http_only,
            same_site: self.same_site,
            priority: self.priority,
        })
    }
}

impl Copied for Row {
    fn copied(&self, alloc: Global) -> Result<Row, NoMemory> {
        self.copy(alloc)
    }
}

/// A change of the stored rows: one comes in the place of its id, or that of an id goes.
///
/// This jar's own rule: docs/DEFINITIONS.md.
#[derive(Drop)]
pub enum RowChange {
    Put(Row),
    Drop(CookieId),
}

/// Changes of the stored rows in their order, seen as their list.
pub type RowChanges = Listed<RowChange>;

impl RowChange {
    /// The same change again.
    pub fn copy(&self, alloc: Global) -> Result<RowChange, NoMemory>
        ensures { IfOk result (λ change. change ≡ self.now) }
    {
        match self {
            RowChange::Put(row) => Ok(RowChange::Put(row.copy(alloc)?)),
            RowChange::Drop(id) => Ok(RowChange::Drop(id.copy(alloc)?)),
        }
    }
}

impl Copied for RowChange {
    fn copied(&self, alloc: Global) -> Result<RowChange, NoMemory> {
        self.copy(alloc)
    }
}
