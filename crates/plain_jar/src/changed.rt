//! What a part of an event makes of the cookies.

ghost use Rattle.std.specs.Prelude.{◌≡◌, ◌++◌, IfOk};
ghost use Rattle.jar_types.specs.Changes as spec;

use crate::by_id::ById;
use jar_types::{Change, NoMemory};
use std::alloc::Global;
use std::marker::Model;

/// The cookies that are left, and the changes that led there, in their order.
#[derive(Drop)]
pub struct Changed {
    pub cookies: ById,
    pub changes: Vec<Change>,
}

impl Model for Changed {
    ghost use Rattle.jar_types.specs.Changes.{Changed};

    ghost Value = { Changed };

    ghost view = { λ c. record { cookies = c.cookies; changes = c.changes.items } };
}

impl Changed {
    /// Nothing was changed.
    pub fn unchanged(alloc: Global, cookies: ById) -> Changed
        ensures { result ≡ spec.unchanged cookies }
    {
        Changed {
            cookies,
            changes: Vec::new(alloc),
        }
    }

    /// The same, behind these changes.
    pub fn behind(self, first: Vec<Change>) -> Result<Changed, NoMemory>
        ensures { IfOk result (λ all. all
            ≡ record { cookies = self.cookies; changes = first.items ++ self.changes }) }
    {
        let Changed {
            cookies,
            mut changes,
        } = self;
        let mut all = first;
        all.append(&mut changes)?;
        Ok(Changed {
            cookies,
            changes: all,
        })
    }
}
