//! Newer changes over older ones.

ghost use Rattle.std.specs.Prelude.{◌≡◌, ◌++◌, IfOk, OnOk};
ghost use Rattle.jar_types.specs.RowChanges.{newest_over};
ghost use Rattle.commit_batches.specs.Waiting.{ChangesRise};

use crate::order::change_cmp;
use crate::pending::Pending;
use jar_types::{NoMemory, RowChange, RowChanges};
use std::alloc::Global;
use std::cmp::Ordering;

/// For each id that has a change the newer one, where there is one, else the older one, in the
/// order of the ids. Both lists stay as they are.
///
/// This jar's own rule: docs/DEFINITIONS.md.
pub fn overlay(alloc: Global, older: &RowChanges, newer: &Pending) -> Result<RowChanges, NoMemory>
    requires { ChangesRise older.now }
    ensures value { IfOk result (λ changes. changes ≡ newest_over older.now newer.now.list) }
    ensures rises { IfOk result ChangesRise }
{
    merged(alloc, older.as_slice(), newer.as_slice())
}

/// The changes of two lists whose ids rise, in the order of the ids: of two changes of an id the
/// newer.
fn merged(alloc: Global, older: &[RowChange], newer: &[RowChange]) -> Result<RowChanges, NoMemory>
    requires old { ChangesRise older.now }
    requires new { ChangesRise newer.now }
    ensures { IfOk result (λ changes. changes ≡ newest_over older.now newer.now) }
{
    let mut changes = RowChanges::new(alloc);
    let mut i = 0;
    let mut j = 0;
    'pairs: while i < older.len() && j < newer.len() {
        let old = &older[i];
        let new = &newer[j];
        match change_cmp(old, new) {
            Ordering::Less => {
                changes.push(old.copy(alloc)?)?;
                i += 1;
            }
            Ordering::Equal => {
                changes.push(new.copy(alloc)?)?;
                i += 1;
                j += 1;
            }
            Ordering::Greater => {
                changes.push(new.copy(alloc)?)?;
                j += 1;
            }
        }
    }
    push_all(alloc, &mut changes, &older[i..])?;
    push_all(alloc, &mut changes, &newer[j..])?;
    Ok(changes)
}

/// Adds copies of changes at the end.
fn push_all(alloc: Global, changes: &mut RowChanges, more: &[RowChange]) -> Result<(), NoMemory>
    ensures { OnOk result (changes.new ≡ changes.old ++ more.now) }
{
    for change in more {
        changes.push(change.copy(alloc)?)?;
    }
    Ok(())
}
