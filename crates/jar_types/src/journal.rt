//! The journal.

ghost use Rattle.std.specs.Prelude.{◌≡◌, ◌++◌, ◌∷◌, [], ◌+◌, ◌≤◌, IfOk, IfNone, OnOk, OnErr, length, slice_get};
ghost use Rattle.std.specs.Prelude.{option_copied, option_to_list};

use crate::entry::Entry;
use jar_values::NoMemory;
use std::alloc::Global;
use std::marker::Model;

/// Entries in the order in which they happened, seen as their list beside a number, the spare.
///
/// The spare is for how many more entries there is room.
#[derive(Drop)]
pub struct Journal {
    items: Vec<Entry>,
}

impl Model for Journal {
    ghost use Rattle.std.specs.Prelude.{◌-◌, vec_len};
    ghost use Rattle.std.specs.Vec.{vec_capacity};
    ghost use Rattle.jar_types.specs.Entries.{Entries};

    ghost Value = { Entries };

    ghost view = { λ j. record { list = j.items.items; spare = vec_capacity j.items - vec_len j.items } };
}

impl Journal {
    /// No entry.
    pub fn new(alloc: Global) -> Journal
        ensures { result.list ≡ [] }
    {
        Journal {
            items: Vec::new(alloc),
        }
    }

    /// How many there are.
    pub fn len(&self) -> usize
        ensures { result ≡ length self.now.list }
    {
        self.items.len()
    }

    /// The one at an index, counted from 0; none past the last.
    pub fn get(&self, index: usize) -> Option<&Entry>
        ensures { option_copied result ≡ slice_get self.now.list index }
    {
        self.items.get(index)
    }

    /// All of them.
    pub fn as_slice(&self) -> &[Entry]
        ensures { result.now ≡ self.now.list }
    {
        self.items.as_slice()
    }

    /// Adds one at the end, and lowers the spare by one at most. Where memory is wanting the list stays, and the
    /// spare is no less.
    pub fn push(&mut self, entry: Entry) -> Result<(), NoMemory>
        ensures ok { OnOk result (self.new.list ≡ self.old.list ++ entry ∷ []) }
        ensures room { OnOk result (self.old.spare ≤ self.new.spare + 1) }

        ensures err { OnErr result (self.new.list ≡ self.old.list) }
        ensures spare { OnErr result (self.old.spare ≤ self.new.spare) }
    {
        self.items.push(entry)?;
        Ok(())
    }

    /// Takes the last one out, and there is room for it; none where there is none.
    pub fn pop(&mut self) -> Option<Entry>
        ensures taken { self.old.list ≡ self.new.list ++ option_to_list result }
        ensures none { IfNone result (self.old.list ≡ []) }
        ensures spare { self.new.spare + length self.new.list ≡ self.old.spare + length self.old.list }
    {
        self.items.pop()
    }

    /// Makes room for at least this many more. Where memory is wanting the spare is no less.
    pub fn reserve(&mut self, n: usize) -> Result<(), NoMemory>
        ensures same { self.new.list ≡ self.old.list }
        ensures room { OnOk result (n ≤ self.new.spare) }
        ensures kept { self.old.spare ≤ self.new.spare }
    {
        self.items.reserve(n)?;
        Ok(())
    }

    /// Adds one at the end, for which there is room. It takes no memory.
    pub fn add(&mut self, entry: Entry)
        requires { 1 ≤ self.old.spare }
        ensures added { self.new.list ≡ self.old.list ++ entry ∷ [] }
        ensures spare { self.new.spare + 1 ≡ self.old.spare }
    {
        self.items.push_reserved(entry);
    }

    /// The same list again.
    pub fn copy(&self, alloc: Global) -> Result<Journal, NoMemory>
        ensures { IfOk result (λ journal. journal.list ≡ self.now.list) }
    {
        let mut copies = Journal::new(alloc);
        for entry in self.as_slice() {
            copies.push(entry.copy(alloc)?)?;
        }
        Ok(copies)
    }
}
