//! The changes that wait for a commit.

ghost use Rattle.std.specs.Prelude.{◌≡◌, [], ◌+◌, ◌<◌, ◌≤◌, IfOk, OnOk, length, nat_le, vec_len};
ghost use Rattle.std.specs.List.Sorted.{IsSearchInRange};
ghost use Rattle.std.specs.Vec.{vec_capacity};
ghost use Rattle.jar_types.specs.declared.row.RowChange.TheVariants.{Put, Drop};
ghost use Rattle.jar_types.specs.Orders.{put_by};
ghost use Rattle.jar_types.specs.RowChanges as spec;
ghost use Rattle.commit_batches.specs.Waiting.{ChangesRise, IsPlaceOf};

use crate::order::change_cmp;
use jar_types::{CookieId, NoMemory, Row, RowChange, RowChanges};
use std::alloc::Global;
use std::marker::Model;
use std::mem;

/// How many changed rows may wait: from this number on a commit is due.
///
/// This jar's own rule: docs/DEFINITIONS.md.
pub const MOST_PENDING: usize = 512;

/// The changes of stored rows that wait for a commit, seen as their list beside a number, the
/// spare.
///
/// Each id has one change, the newest, and the ids rise. The spare is for how many more there is
/// room.
///
/// This jar's own rule: docs/DEFINITIONS.md.
#[derive(Drop)]
pub struct Pending {
    items: Vec<RowChange>,
}

impl Model for Pending {
    ghost use Rattle.std.specs.Prelude.{◌-◌, vec_len};
    ghost use Rattle.std.specs.Vec.{vec_capacity};
    ghost use Rattle.commit_batches.specs.Waiting.{Waiting, ChangesRise};

    ghost Value = { Waiting };

    ghost view = { λ p. record { list = p.items.items; spare = vec_capacity p.items - vec_len p.items } };

    ghost invariant = { λ p. ChangesRise p.items.items };
}

impl Pending {
    /// No change.
    pub fn fresh(alloc: Global) -> Pending
        ensures { result.list ≡ [] }
    {
        Pending {
            items: Vec::new(alloc),
        }
    }

    /// How many changes wait.
    pub fn count(&self) -> usize
        ensures { result ≡ length self.now.list }
    {
        self.items.len()
    }

    /// Whether a commit is due: as many changes wait as may, or more.
    pub fn due(&self) -> bool
        ensures { result ≡ nat_le MOST_PENDING (length self.now.list) }
    {
        self.count() >= MOST_PENDING
    }

    /// All of them, in the order of their ids.
    pub fn as_slice(&self) -> &[RowChange]
        ensures value { result.now ≡ self.now.list }
        ensures rises { ChangesRise self.now.list }
    {
        self.items.as_slice()
    }

    /// The same changes again, in the order of their ids.
    pub fn copy(&self, alloc: Global) -> Result<RowChanges, NoMemory>
        ensures value { IfOk result (λ changes. changes ≡ self.now.list) }
        ensures rises { IfOk result ChangesRise }
    {
        let mut copies = RowChanges::new(alloc);
        for change in self.items.as_slice() {
            copies.push(change.copy(alloc)?)?;
        }
        Ok(copies)
    }

    /// Makes room for at least this many more. Where memory is wanting the spare is no less.
    pub fn reserve(&mut self, n: usize) -> Result<(), NoMemory>
        ensures same { self.new.list ≡ self.old.list }
        ensures room { OnOk result (n ≤ self.new.spare) }
        ensures kept { self.old.spare ≤ self.new.spare }
    {
        self.items.reserve(n)?;
        Ok(())
    }

    /// A row comes in the place of its id, and an older change of this id is forgotten. It takes no
    /// memory, and lowers the spare by one at most.
    pub fn put(&mut self, row: Row)
        requires { 1 ≤ self.old.spare }
        ensures list { self.new.list ≡ put_by spec.change_cmp (Put row) self.old.list }
        ensures spare { self.old.spare ≤ self.new.spare + 1 }
    {
        self.place(RowChange::Put(row));
    }

    /// The row of an id goes, and an older change of this id is forgotten. It takes no memory, and
    /// lowers the spare by one at most.
    pub fn drop_row(&mut self, id: CookieId)
        requires { 1 ≤ self.old.spare }
        ensures list { self.new.list ≡ put_by spec.change_cmp (Drop id) self.old.list }
        ensures spare { self.old.spare ≤ self.new.spare + 1 }
    {
        self.place(RowChange::Drop(id));
    }

    /// Newer changes come over those that wait, one after another. It takes no memory, and lowers
    /// the spare by their number at most.
    pub fn add(&mut self, changes: RowChanges)
        requires { length changes ≤ self.old.spare }
        ensures list { self.new.list ≡ spec.newest_over self.old.list changes }
        ensures spare { self.old.spare ≤ self.new.spare + length changes }
    {
        for change in changes.into_vec() {
            self.place(change);
        }
    }

    /// Takes all of them out, in the order of their ids. It takes no memory; there may be no spare
    /// then.
    pub fn take(&mut self) -> RowChanges
        ensures value { result ≡ self.old.list }
        ensures rises { ChangesRise result }
        ensures none { self.new.list ≡ [] }
    {
        let alloc = *self.items.allocator();
        let taken = mem::replace(&mut self.items, Vec::new(alloc));
        RowChanges::from_vec(taken)
    }

    /// Puts a change in the place of its id, for which there is room.
    fn place(&mut self, change: RowChange)
        requires { 1 ≤ self.old.spare }
        ensures list { self.new.list ≡ put_by spec.change_cmp change self.old.list }
        ensures spare { self.old.spare ≤ self.new.spare + 1 }
    {
        place_among(&mut self.items, change);
    }
}

/// Puts a change in the place of its id among others, for which there is room.
fn place_among(changes: &mut Vec<RowChange>, change: RowChange)
    requires rises { ChangesRise changes.old.items }
    requires room { vec_len changes.old < vec_capacity changes.old }
    ensures list { changes.new.items ≡ put_by spec.change_cmp change changes.old.items }
    ensures len { vec_len changes.new ≤ vec_len changes.old + 1 }
    ensures capacity { vec_capacity changes.old ≤ vec_capacity changes.new }
{
    match place_of(changes.as_slice(), &change) {
        Ok(at) => changes[at] = change,
        Err(at) => {
            let _placed = changes.insert(at, change);
        }
    }
}

/// Where a change of the id stands; where none does, the place for it.
fn place_of(changes: &[RowChange], change: &RowChange) -> Result<usize, usize>
    requires { ChangesRise changes.now }
    ensures bound { IsSearchInRange result (length changes.now) }
    ensures place { IsPlaceOf change.now changes.now result }
{
    changes.binary_search_by(|other| change_cmp(other, change))
}
