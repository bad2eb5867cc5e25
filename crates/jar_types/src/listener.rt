//! Listeners: which changes they get, and those that they have not taken yet.

ghost use Rattle.std.specs.Prelude.{◌≡◌, IfOk};

use crate::change::Changes;
use crate::request::Request;
use jar_values::{Copied, Listed, NoMemory, Text};
use std::alloc::Global;

/// Which changes a listener gets.
///
/// `All` is for each change, `Seen` for those of the cookies that a request matches, and `Named` for
/// those of them that have a name.
///
/// This jar's own rule: docs/DEFINITIONS.md.
#[derive(Drop)]
pub enum Scope {
    All,
    Seen(Request),
    Named(Request, Text),
}

/// A listener: its caller, its number among all that this caller registered, from 1, which changes it
/// gets, and those that were not taken yet, in their order.
///
/// This jar's own rule: docs/DEFINITIONS.md.
#[derive(Drop)]
pub struct Listener {
    pub caller: u32,
    pub number: u64,
    pub scope: Scope,
    pub untaken: Changes,
}

/// Listeners in the order in which they were registered, seen as their list.
pub type Listeners = Listed<Listener>;

impl Scope {
    /// The same scope again.
    pub fn copy(&self, alloc: Global) -> Result<Scope, NoMemory>
        ensures { IfOk result (λ scope. scope ≡ self.now) }
    {
        match self {
            Scope::All => Ok(Scope::All),
            Scope::Seen(request) => Ok(Scope::Seen(request.copy(alloc)?)),
            Scope::Named(request, name) => {
                Ok(Scope::Named(request.copy(alloc)?, name.copy(alloc)?))
            }
        }
    }
}

impl Listener {
    /// The same listener again.
    pub fn copy(&self, alloc: Global) -> Result<Listener, NoMemory>
        ensures { IfOk result (λ listener. listener ≡ self.now) }
    {
        Ok(Listener {
            caller: self.caller,
            number: self.number,
            scope: self.scope.copy(alloc)?,
            untaken: self.untaken.copy(alloc)?,
        })
    }
}

impl Copied for Listener {
    fn copied(&self, alloc: Global) -> Result<Listener, NoMemory> {
        self.copy(alloc)
    }
}
