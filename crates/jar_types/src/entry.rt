//! Events, and the entries of the journal that they make.

ghost use Rattle.std.specs.Prelude.{◌≡◌, IfOk};

use crate::cookie::Cookies;
use crate::op::{Op, Reply};
use jar_values::{Moment, NoMemory, Text};
use std::alloc::Global;

/// What the jar does of its own accord.
///
/// - `Want` says that callers wait for a key, `WantAll` that they wait for the whole jar.
/// - `Begun` says that the load of a key has begun, `Loaded` that it has ended with these cookies, in the order of
///   their ids, and `Lost` that it has failed.
/// - `Whole` says that every key is loaded, at a moment: the jar is swept.
/// - `Taken` takes the changes of stored rows as a batch that is to be committed. `Acked` says that the batch taken at
///   a place of the journal was committed, and `CommitLost` that it was not.
///
/// This jar's own rule: docs/DEFINITIONS.md.
#[derive(Drop)]
pub enum Own {
    Want(Text),
    WantAll,
    Begun(Text),
    Loaded { key: Text, cookies: Cookies },
    Lost(Text),
    Whole(Moment),
    Taken,
    Acked(u64),
    CommitLost(u64),
}

impl Own {
    /// The same again.
    pub fn copy(&self, alloc: Global) -> Result<Own, NoMemory>
        ensures { IfOk result (λ own. own ≡ self.now) }
    {
        match self {
            Own::Want(key) => Ok(Own::Want(key.copy(alloc)?)),
            Own::WantAll => Ok(Own::WantAll),
            Own::Begun(key) => Ok(Own::Begun(key.copy(alloc)?)),
            Own::Loaded { key, cookies } => Ok(Own::Loaded {
                key: key.copy(alloc)?,
                cookies: cookies.copy(alloc)?,
            }),
            Own::Lost(key) => Ok(Own::Lost(key.copy(alloc)?)),
            Own::Whole(now) => Ok(Own::Whole(*now)),
            Own::Taken => Ok(Own::Taken),
            Own::Acked(place) => Ok(Own::Acked(*place)),
            Own::CommitLost(place) => Ok(Own::CommitLost(*place)),
        }
    }
}

/// What is to happen: the op of a caller at a moment, or what the jar does itself.
#[derive(Drop)]
pub enum Event {
    Call { caller: u32, now: Moment, op: Op },
    Jar(Own),
}

/// What happened: an event, with the reply where a caller made it.
#[derive(Drop)]
pub enum Entry {
    Call {
        caller: u32,
        now: Moment,
        op: Op,
        reply: Reply,
    },
    Jar(Own),
}

impl Event {
    /// The same event again.
    pub fn copy(&self, alloc: Global) -> Result<Event, NoMemory>
        ensures { IfOk result (λ event. event ≡ self.now) }
    {
        match self {
            Event::Call { caller, now, op } => Ok(Event::Call {
                caller: *caller,
                now: *now,
                op: op.copy(alloc)?,
            }),
            Event::Jar(own) => Ok(Event::Jar(own.copy(alloc)?)),
        }
    }
}

impl Entry {
    /// The same entry again.
    pub fn copy(&self, alloc: Global) -> Result<Entry, NoMemory>
        ensures { IfOk result (λ entry. entry ≡ self.now) }
    {
        match self {
            Entry::Call {
                caller,
                now,
                op,
                reply,
            } => Ok(Entry::Call {
                caller: *caller,
                now: *now,
                op: op.copy(alloc)?,
                reply: reply.copy(alloc)?,
            }),
            Entry::Jar(own) => Ok(Entry::Jar(own.copy(alloc)?)),
        }
    }
}
