//! Ids whose stored row changed.

ghost use Rattle.std.specs.Prelude.{◌≡◌, ◌++◌, [], IfOk, OnOk, fold, map, nat_eq, length};
ghost use Rattle.std.specs.List.Sorted.{IsStrictlySortedBy};
ghost use Rattle.jar_types.specs.Ids.{id_cmp};
ghost use Rattle.jar_types.specs.Orders.{put_by};
ghost use Rattle.jar_types.specs.RowChanges as spec;

use crate::order::change_order;
use jar_types::{CookieId, NoMemory, RowChange};
use std::alloc::Global;
use std::cmp::Ordering;
use std::marker::Model;

/// Ids that rise, seen as their list.
#[derive(Drop)]
pub struct Touched {
    ids: Vec<CookieId>,
}

impl Model for Touched {
    ghost use Rattle.std.specs.Prelude.{List};
    ghost use Rattle.std.specs.List.Sorted.{IsStrictlySortedBy};
    ghost use Rattle.jar_types.specs.declared.cookie.CookieId.{CookieId};
    ghost use Rattle.jar_types.specs.Ids.{id_cmp};

    ghost Value = { List CookieId };

    ghost view = { λ t. t.ids.items };

    ghost invariant = { λ t. IsStrictlySortedBy id_cmp t.ids.items };
}

impl Touched {
    /// No id.
    pub fn new(alloc: Global) -> Touched
        ensures { result ≡ [] }
    {
        Touched {
            ids: Vec::new(alloc),
        }
    }

    /// Whether there is none.
    pub fn is_empty(&self) -> bool
        ensures { result ≡ nat_eq (length self.now) 0 }
    {
        self.ids.is_empty()
    }

    /// None is left. It takes no memory.
    pub fn clear(&mut self)
        ensures { self.new ≡ [] }
    {
        self.ids.clear();
    }

    /// The same ids again.
    pub fn copy(&self, alloc: Global) -> Result<Touched, NoMemory>
        ensures { IfOk result (λ ids. ids ≡ self.now) }
    {
        let mut ids = Vec::new(alloc);
        add_ids(alloc, &mut ids, self.ids.as_slice())?;
        Ok(Touched { ids })
    }

    /// These ids and those of changes, each once.
    #[tactic(auto, using(crate::proofs::TouchLemmas::touch_rises))]
    pub fn with(&self, alloc: Global, changes: &[RowChange]) -> Result<Touched, NoMemory>
        requires { IsStrictlySortedBy spec.change_cmp changes.now }
        ensures { IfOk result (λ ids. ids
            ≡ fold (λ ids change. put_by id_cmp (spec.change_id change) ids) self.now changes.now) }
    {
        Ok(Touched {
            ids: merged(alloc, self.ids.as_slice(), changes)?,
        })
    }
}

/// These ids and those of changes, in their order, each once.
fn merged(alloc: Global, ids: &[CookieId], changes: &[RowChange]) -> Result<Vec<CookieId>, NoMemory>
    requires ids { IsStrictlySortedBy id_cmp ids.now }
    requires changes { IsStrictlySortedBy spec.change_cmp changes.now }
    ensures { IfOk result (λ all. all.items
        ≡ fold (λ ids change. put_by id_cmp (spec.change_id change) ids) ids.now changes.now) }
{
    let mut all = Vec::new(alloc);
    let mut old = 0;
    let mut new = 0;
    'ids: while old < ids.len() && new < changes.len() {
        let id = &ids[old];
        let change = &changes[new];
        match change_order(id, change) {
            Ordering::Less => {
                all.push(id.copy(alloc)?)?;
                old += 1;
            }
            Ordering::Equal => new += 1,
            Ordering::Greater => {
                all.push(id_of(alloc, change)?)?;
                new += 1;
            }
        }
    }
    add_ids(alloc, &mut all, &ids[old..])?;
    add_changed(alloc, &mut all, &changes[new..])?;
    Ok(all)
}

/// Adds ids at the end.
fn add_ids(alloc: Global, all: &mut Vec<CookieId>, ids: &[CookieId]) -> Result<(), NoMemory>
    ensures { OnOk result (all.new.items ≡ all.old.items ++ ids.now) }
{
    for id in ids {
        all.push(id.copy(alloc)?)?;
    }
    Ok(())
}

/// Adds the ids of changes at the end.
fn add_changed(
    alloc: Global,
    all: &mut Vec<CookieId>,
    changes: &[RowChange],
) -> Result<(), NoMemory>
    ensures { OnOk result (all.new.items ≡ all.old.items ++ map spec.change_id changes.now) }
{
    for change in changes {
        all.push(id_of(alloc, change)?)?;
    }
    Ok(())
}

/// The id of a change.
fn id_of(alloc: Global, change: &RowChange) -> Result<CookieId, NoMemory>
    ensures { IfOk result (λ id. id ≡ spec.change_id change.now) }
{
    match change {
        RowChange::Put(row) => Ok(CookieId {
            host: row.host.copy(alloc)?,
            name: row.name.copy(alloc)?,
            path: row.path.copy(alloc)?,
        }),
        RowChange::Drop(id) => id.copy(alloc),
    }
}
