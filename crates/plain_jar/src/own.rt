//! What the jar does of its own accord.

ghost use Rattle.std.specs.Prelude.{◌≡◌, ◌<◌, ◌-◌, ◌^◌, false, true, IfOk, IfSome, IfNone};
ghost use Rattle.std.specs.List.Sorted.{IsStrictlySortedBy};
ghost use Rattle.jar_types.specs.RowChanges.{change_cmp};
ghost use Rattle.jar_types.specs.Steps as steps;
ghost use Rattle.jar_types.specs.Waits.{own_takes_memory, takes_memory};

use crate::by_id::ById;
use crate::changed::Changed;
use crate::content::Content;
use crate::evict::swept;
use crate::row_changes::row_changes;
use jar_types::{Change, Cookie, Event, Moment, NoMemory, Own, RowChanges};
use std::alloc::Global;
use std::marker::Model;

/// The content after what the jar does itself, and the changes of the cookies.
#[derive(Drop)]
pub struct OwnStepped {
    pub content: Content,
    pub changes: Vec<Change>,
}

impl Model for OwnStepped {
    ghost use Rattle.jar_types.specs.States.{OwnStepped};

    ghost Value = { OwnStepped };

    ghost view = { λ s. record { state = s.content; changes = s.changes.items } };
}

/// What the jar does itself: to the cookies, their loading, and the batches.
///
/// This jar's own rule: docs/DEFINITIONS.md.
pub fn own_step(alloc: Global, content: &Content, own: &Own) -> Result<OwnStepped, NoMemory>
    requires { content.now.entries < 2 ^ 64 - 1 }
    ensures { IfOk result (λ s. s ≡ steps.own_step content.now own.now) }
{
    let Changed { cookies, changes } = own_changed(alloc, own, content.cookies.copy(alloc)?)?;
    let mut next = content.with_cookies(alloc, cookies)?;
    next.loads.step(alloc, own)?;
    next.batches.step(content.entries + 1, own);
    Ok(OwnStepped {
        content: next,
        changes,
    })
}

/// What the jar does itself makes of the cookies: loaded ones come among them, and where it becomes whole it is swept.
fn own_changed(alloc: Global, own: &Own, cookies: ById) -> Result<Changed, NoMemory>
    ensures { IfOk result (λ all. all ≡ steps.own_changed own.now cookies) }
{
    match own {
        Own::Loaded {
            cookies: loaded,
            ..
        } => {
            let all = loaded_among(alloc, loaded.as_slice(), cookies)?;
            Ok(Changed::unchanged(alloc, all))
        }
        Own::Whole(now) => swept(alloc, *now, cookies),
        Own::Want(_)
        | Own::WantAll
        | Own::Begun(_)
        | Own::Lost(_)
        | Own::Taken
        | Own::Acked(_)
        | Own::CommitLost(_) => Ok(Changed::unchanged(alloc, cookies)),
    }
}

/// The cookies with loaded ones among them, each in the place of its id.
fn loaded_among(alloc: Global, loaded: &[Cookie], cookies: ById) -> Result<ById, NoMemory>
    ensures { IfOk result (λ all. all ≡ steps.loaded_among loaded.now cookies) }
{
    let mut all = cookies;
    for cookie in loaded {
        all = all.with(alloc, cookie.copy(alloc)?)?;
    }
    Ok(all)
}

/// The moment of what the jar does itself, where that changes cookies.
pub fn own_moment(own: &Own) -> Moment
    ensures { result ≡ steps.own_moment own.now }
{
    match own {
        Own::Whole(now) => *now,
        Own::Want(_)
        | Own::WantAll
        | Own::Begun(_)
        | Own::Loaded { .. }
        | Own::Lost(_)
        | Own::Taken
        | Own::Acked(_)
        | Own::CommitLost(_) => Moment::of(0).unwrap(),
    }
}

/// The changes of stored rows that the jar makes itself, where it leaves these cookies.
///
/// This jar's own rule: docs/DEFINITIONS.md.
pub fn own_rows(
    alloc: Global,
    own: &Own,
    before: &ById,
    later: &ById,
) -> Result<RowChanges, NoMemory>
    requires { later.now ≡ (steps.own_changed own.now before.now).cookies }
    ensures value { IfOk result (λ changes. changes ≡ steps.own_rows own.now before.now) }
    ensures rises { IfOk result (λ changes. IsStrictlySortedBy change_cmp changes) }
{
    match own {
        Own::Whole(_) => row_changes(alloc, before, later),
        Own::Want(_)
        | Own::WantAll
        | Own::Begun(_)
        | Own::Loaded { .. }
        | Own::Lost(_)
        | Own::Taken
        | Own::Acked(_)
        | Own::CommitLost(_) => Ok(RowChanges::new(alloc)),
    }
}

/// What the jar does itself to its batches alone, which takes no memory; none where an event is something else.
///
/// This jar's own rule: docs/DEFINITIONS.md.
pub fn of_batches(event: &Event) -> Option<Own>
    ensures some { IfSome result (λ own. event.now ≡ Event.Jar own) }
    ensures free { IfSome result (λ own. takes_memory (Event.Jar own) ≡ false) }
    ensures none { IfNone result (takes_memory event.now ≡ true) }
{
    match event {
        Event::Jar(own) => batch_of(own),
        Event::Call { .. } => None,
    }
}

/// The same again, where it is done to the batches alone.
fn batch_of(own: &Own) -> Option<Own>
    ensures some { IfSome result (λ again. own.now ≡ again) }
    ensures free { IfSome result (λ again. own_takes_memory again ≡ false) }
    ensures none { IfNone result (own_takes_memory own.now ≡ true) }
{
    match own {
        Own::Taken => Some(Own::Taken),
        Own::Acked(place) => Some(Own::Acked(*place)),
        Own::CommitLost(place) => Some(Own::CommitLost(*place)),
        Own::Want(_)
        | Own::WantAll
        | Own::Begun(_)
        | Own::Loaded { .. }
        | Own::Lost(_)
        | Own::Whole(_) => None,
    }
}
