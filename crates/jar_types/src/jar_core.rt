//! What a core of the jar does: it holds the content, prepares entries and settles them.

ghost use Rattle.std.specs.Prelude.{◌≡◌, ◌<◌, ◌-◌, ◌^◌, None, IfOk, IfErr, OnOk};
ghost use Rattle.std.specs.List.Sorted.{IsStrictlySortedBy};
ghost use Rattle.jar_types.specs.Bound.{cell_of};
ghost use Rattle.jar_types.specs.Changes.{moved_keys};
ghost use Rattle.jar_types.specs.Ids.{text_cmp};
ghost use Rattle.jar_types.specs.States.{opening};
ghost use Rattle.jar_types.specs.Steps.{OwnMayStand, after, changes_at, entry_of, event_of, own_may_stand, rows_at};
ghost use Rattle.jar_types.specs.Waits.{IsWish, Refuses, is_awaited, waits};
ghost use Rattle.jar_types.specs.declared.jar_core.CoreRefusal.TheVariants.{NoMemory as WantOfMemory};

use crate::entry::{Entry, Event, Own};
use crate::row::RowChanges;
use jar_values::{NoMemory, Text, Texts};
use std::alloc::Global;
use std::error::Error;
use std::fmt;

/// An entry that a core has made ready, the keys whose cookies it changes, ascending, and the changes that it makes of
/// stored rows, in the order of their ids.
#[derive(Drop)]
pub struct Prepared {
    pub entry: Entry,
    pub moved: Texts,
    pub rows: RowChanges,
}

impl Prepared {
    /// The same again.
    pub fn copy(&self, alloc: Global) -> Result<Prepared, NoMemory>
        ensures { IfOk result (λ prepared. prepared ≡ self.now) }
    {
        Ok(Prepared {
            entry: self.entry.copy(alloc)?,
            moved: self.moved.copy(alloc)?,
            rows: self.rows.copy(alloc)?,
        })
    }
}

/// What has to be loaded for a call: the stored cookies of a key, or all.
#[derive(Drop)]
pub enum Awaited {
    Key(Text),
    All,
}

impl Awaited {
    /// The same again.
    pub fn copy(&self, alloc: Global) -> Result<Awaited, NoMemory>
        ensures { IfOk result (λ awaited. awaited ≡ self.now) }
    {
        match self {
            Awaited::Key(key) => Ok(Awaited::Key(key.copy(alloc)?)),
            Awaited::All => Ok(Awaited::All),
        }
    }
}

/// What a core would have loaded next: a key, whose load may have begun; or it would become whole; or nothing.
///
/// This jar's own rule: docs/DEFINITIONS.md.
#[derive(Clone, Copy)]
pub enum LoadWish<'core> {
    Key(&'core Text),
    Whole,
    Idle,
}

/// Why a core prepares no entry.
#[derive(Drop)]
pub enum CoreRefusal {
    /// A call needs what isn't loaded, and no load of it was lost.
    Pending(Awaited),
    /// A Hear waits: its actor has made as many posts as `found`, and fewer than it wants.
    NotYet { found: u64 },
    /// Memory was wanting.
    NoMemory,
}

impl fmt::Display for CoreRefusal {
    fn fmt<W: fmt::Write>(&self, f: &mut fmt::Formatter<W>) -> fmt::Result {
        match self {
            CoreRefusal::Pending(Awaited::Key(key)) => {
                write!(f, "the cookies of {} aren't loaded", key.as_str())
            }
            CoreRefusal::Pending(Awaited::All) => write!(f, "not all cookies are loaded"),
            CoreRefusal::NotYet { found } => write!(f, "only {found} posts were made"),
            CoreRefusal::NoMemory => write!(f, "out of memory"),
        }
    }
}

impl fmt::Debug for CoreRefusal {
    fn fmt<W: fmt::Write>(&self, f: &mut fmt::Formatter<W>) -> fmt::Result {
        fmt::Display::fmt(self, f)
    }
}

impl Error for CoreRefusal {}

impl From<NoMemory> for CoreRefusal {
    ghost from_gives = { λ _ refusal. refusal ≡ WantOfMemory };

    fn from(_error: NoMemory) -> CoreRefusal {
        CoreRefusal::NoMemory
    }
}

/// The content of the jar, seen as the state of the jar of one thread.
///
/// This jar's own rule: docs/DEFINITIONS.md.
pub trait JarCore {
    ghost use Rattle.jar_types.specs.States.{JarState};
    ghost use Rattle.jar_types.specs.declared.jar_core.Prepared.{Prepared as PreparedData};

    /// The content.
    ghost state: { Self → JarState };

    /// Whether an entry was made ready at this content, just as it stands.
    ghost ready: { Self → PreparedData → Type 0 };

    /// An empty jar, in which every key but these is loaded. They ascend, and no two are the same.
    fn fresh(alloc: Global, keys: Texts) -> Result<Self, NoMemory>
        requires { IsStrictlySortedBy text_cmp keys }
        ensures { IfOk result (λ core. state core ≡ opening keys) };

    /// The entry of an event. The content stays, and the core is ready for the entry until its next call by `&mut`.
    ///
    /// Pending is refused exactly where a call needs what isn't loaded, and no load of it was lost; NotYet exactly
    /// where a Hear wants more posts than its actor has made; then want of memory, but never for a batch that is
    /// taken, acknowledged or lost. Want of memory alone may come in the place of a Pending that names a key, whose
    /// text is a copy.
    fn prepare(&mut self, alloc: Global, event: &Event) -> Result<Prepared, CoreRefusal>
        requires room { (state self.old).entries < 2 ^ 64 - 1 }
        requires stands { OwnMayStand (state self.old) event.now }

        // The entry is the one that the event makes, and these are the keys that it moves and the rows that it changes.
        ensures entry { IfOk result (λ p. p.entry ≡ entry_of (state self.old) event.now) }
        ensures moved { IfOk result (λ p. p.moved ≡ moved_keys (changes_at (state self.old) event.now)) }
        ensures rows { IfOk result (λ p. p.rows ≡ rows_at (state self.old) event.now) }
        ensures ready { IfOk result (λ p. ready self.new p) }

        ensures there { OnOk result (waits (state self.old) event.now ≡ None) }
        ensures err { IfErr result (Refuses (state self.old) event.now) }

        ensures same { state self.new ≡ state self.old };

    /// The cell of a key; none where it isn't bound. It takes no memory.
    fn cell_of(&self, key: &str) -> Option<u32>
        ensures { result ≡ cell_of key.now (state self.now).bound };

    /// Whether the jar may do this itself at this content, the list of a Loaded and the moment of a Whole aside. It
    /// takes no memory.
    fn stands(&self, own: &Own) -> bool
        ensures { result ≡ own_may_stand (state self.now) own.now };

    /// What is to be loaded next: the key whose load has begun, else the first that is wanted, else the least that
    /// isn't loaded; else the jar is to become whole. It takes no memory.
    fn next_load(&self) -> LoadWish
        ensures { IsWish (state self.now).loads result };

    /// Whether a caller waits for this. It takes no memory.
    fn is_wanted(&self, awaited: &Awaited) -> bool
        ensures { result ≡ is_awaited (state self.now).loads awaited.now };

    /// The content takes the step of a prepared entry, which is handed back with its changes of stored rows. It takes
    /// no memory.
    fn settle(&mut self, prepared: Prepared) -> (Entry, RowChanges)
        requires { ready self.old prepared }

        // The entry is still the one that its event makes, and the changes are those.
        ensures made { result.0 ≡ entry_of (state self.old) (event_of result.0) }
        ensures entry { result.0 ≡ prepared.entry }
        ensures rows { result.1 ≡ rows_at (state self.old) (event_of result.0) }

        ensures step { state self.new ≡ after (state self.old) (event_of result.0) };
}
