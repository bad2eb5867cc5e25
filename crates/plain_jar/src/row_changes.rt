//! The changes of stored rows between two lists of cookies.

ghost use Rattle.std.specs.Prelude.{◌≡◌, ◌++◌, [], IfOk, OnOk};
ghost use Rattle.std.specs.List.Sorted.{IsStrictlySortedBy};
ghost use Rattle.jar_types.specs.Ids as ids;
ghost use Rattle.jar_types.specs.Ids.{RisesById};
ghost use Rattle.jar_types.specs.RowChanges as spec;
ghost use Rattle.jar_types.specs.Rows.{row_of};
ghost use Rattle.plain_jar.specs.RowWalks.{drop_of, put_of, change_of};

use crate::by_id::ById;
use crate::order::cookie_cmp;
use crate::row::{has_same_row, row_until};
use jar_types::{Cookie, CookieId, NoMemory, RowChange, RowChanges};
use std::alloc::Global;
use std::cmp::Ordering;

/// One change for each id whose row differs, in the order of the ids.
///
/// This jar's own rule: docs/DEFINITIONS.md.
#[tactic(auto, using(crate::proofs::WalkLemmas::changes_rise))]
pub fn row_changes(alloc: Global, before: &ById, later: &ById) -> Result<RowChanges, NoMemory>
    ensures value { IfOk result (λ changes. changes ≡ spec.row_changes before.now later.now) }
    ensures rises { IfOk result (λ changes. IsStrictlySortedBy spec.change_cmp changes) }
{
    let changes = walked(alloc, before.as_slice(), later.as_slice())?;
    Ok(RowChanges::from_vec(changes))
}

/// The changes between two lists of cookies whose ids rise.
fn walked(alloc: Global, before: &[Cookie], later: &[Cookie]) -> Result<Vec<RowChange>, NoMemory>
    requires before { RisesById before.now }
    requires later { RisesById later.now }
    ensures { IfOk result (λ changes. changes.items ≡ spec.row_changes before.now later.now) }
{
    let mut changes = Vec::new(alloc);
    let mut old = 0;
    let mut new = 0;
    'ids: while old < before.len() && new < later.len() {
        let first = &before[old];
        let next = &later[new];
        match cookie_cmp(first, next) {
            Ordering::Less => {
                add_drop(alloc, &mut changes, first)?;
                old += 1;
            }
            Ordering::Equal => {
                add_change(alloc, &mut changes, first, next)?;
                old += 1;
                new += 1;
            }
            Ordering::Greater => {
                add_put(alloc, &mut changes, next)?;
                new += 1;
            }
        }
    }
    add_drops(alloc, &mut changes, &before[old..])?;
    add_puts(alloc, &mut changes, &later[new..])?;
    Ok(changes)
}

/// Adds the changes by which the rows of cookies go that left.
fn add_drops(alloc: Global, changes: &mut Vec<RowChange>, before: &[Cookie]) -> Result<(), NoMemory>
    requires { RisesById before.now }
    ensures { OnOk result (changes.new.items
        ≡ changes.old.items ++ spec.row_changes before.now []) }
{
    for cookie in before {
        add_drop(alloc, changes, cookie)?;
    }
    Ok(())
}

/// Adds the changes by which the rows of cookies come that are new.
fn add_puts(alloc: Global, changes: &mut Vec<RowChange>, later: &[Cookie]) -> Result<(), NoMemory>
    requires { RisesById later.now }
    ensures { OnOk result (changes.new.items ≡ changes.old.items ++ spec.row_changes [] later.now) }
{
    for cookie in later {
        add_put(alloc, changes, cookie)?;
    }
    Ok(())
}

/// Adds the change by which the row of a cookie goes that left, where it has one.
fn add_drop(alloc: Global, changes: &mut Vec<RowChange>, cookie: &Cookie) -> Result<(), NoMemory>
    ensures { OnOk result (changes.new.items ≡ changes.old.items ++ drop_of cookie.now) }
{
    if cookie.expiry.is_none() {
        return Ok(());
    }
    changes.push(RowChange::Drop(id_of(alloc, cookie)?))?;
    Ok(())
}

/// Adds the change by which the row of a new cookie comes, where it has one.
fn add_put(alloc: Global, changes: &mut Vec<RowChange>, cookie: &Cookie) -> Result<(), NoMemory>
    ensures { OnOk result (changes.new.items ≡ changes.old.items ++ put_of cookie.now) }
{
    if cookie.expiry.is_some() {
        changes.push(became(alloc, cookie)?)?;
    }
    Ok(())
}

/// Adds the change by which the row of a cookie becomes that of another of its id, where it differs.
fn add_change(
    alloc: Global,
    changes: &mut Vec<RowChange>,
    old: &Cookie,
    new: &Cookie,
) -> Result<(), NoMemory>
    requires { ids.id_of old.now ≡ ids.id_of new.now }
    ensures { OnOk result (changes.new.items ≡ changes.old.items ++ change_of old.now new.now) }
{
    if !has_same_row(old, new) {
        changes.push(became(alloc, new)?)?;
    }
    Ok(())
}

/// The change by which the row of an id becomes that of a cookie, or goes where it is a session cookie.
fn became(alloc: Global, cookie: &Cookie) -> Result<RowChange, NoMemory>
    ensures { IfOk result (λ change. change
        ≡ spec.became (ids.id_of cookie.now) (row_of cookie.now)) }
{
    match cookie.expiry {
        Some(expiry) => Ok(RowChange::Put(row_until(alloc, cookie, expiry)?)),
        None => Ok(RowChange::Drop(id_of(alloc, cookie)?)),
    }
}

/// The id of a cookie.
fn id_of(alloc: Global, cookie: &Cookie) -> Result<CookieId, NoMemory>
    ensures { IfOk result (λ id. id ≡ ids.id_of cookie.now) }
{
    Ok(CookieId {
        host: cookie.host.copy(alloc)?,
        name: cookie.name.copy(alloc)?,
        path: cookie.path.copy(alloc)?,
    })
}
