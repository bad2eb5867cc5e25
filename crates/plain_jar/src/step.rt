//! The step of an event.

ghost use Rattle.std.specs.Prelude.{◌≡◌, ◌<◌, ◌-◌, ◌^◌, None, true, IfOk, IfErr, OnOk};
ghost use Rattle.std.specs.List.Sorted.{IsStrictlySortedBy};
ghost use Rattle.jar_types.specs.Changes.{moved_keys};
ghost use Rattle.jar_types.specs.Counts.{IsCounted, VersionsUpTo};
ghost use Rattle.jar_types.specs.RowChanges.{change_cmp};
ghost use Rattle.jar_types.specs.Steps as steps;
ghost use Rattle.jar_types.specs.Waits as waits;

use crate::bind::bind;
use crate::content::Content;
use crate::delete::delete;
use crate::get::get;
use crate::listen::{changes, listen, unlisten};
use crate::moved::moved;
use crate::own::{OwnStepped, own_moment, own_rows, own_step};
use crate::post::{hear, op_wanting, post};
use crate::row_changes::row_changes;
use crate::set::set;
use crate::standing::{Standing, fault, standing_of};
use crate::stepped::Stepped;
use crate::tell::told;
use crate::wholes::{all, clear};
use jar_types::{
    Change, CoreRefusal, Entry, Event, Moment, NoMemory, Op, Own, Prepared, RowChange,
};
use std::alloc::Global;

/// What an event makes ready, and the content after it.
#[derive(Drop)]
pub struct Next {
    pub content: Content,
    pub prepared: Prepared,
}

/// What an event makes of a content, or why it waits.
pub fn step(alloc: Global, content: &Content, event: &Event) -> Result<Next, CoreRefusal>
    requires room { content.now.entries < 2 ^ 64 - 1 }
    requires counted { IsCounted content.now }
    requires memory { waits.takes_memory event.now ≡ true }

    ensures content { IfOk result (λ next. next.content ≡ steps.after content.now event.now) }
    ensures entry { IfOk result (λ next. next.prepared.entry
        ≡ steps.entry_of content.now event.now) }
    ensures moved { IfOk result (λ next. next.prepared.moved
        ≡ moved_keys (steps.changes_at content.now event.now)) }
    ensures rows { IfOk result (λ next. next.prepared.rows
        ≡ steps.rows_at content.now event.now) }

    ensures there { OnOk result (waits.waits content.now event.now ≡ None) }
    ensures err { IfErr result (waits.Refuses content.now event.now) }
{
    match event {
        Event::Call { caller, now, op } => call(alloc, content, *caller, *now, op),
        Event::Jar(own) => Ok(own_event(alloc, content, own)?),
    }
}

/// What a caller's op makes of a content, or why it waits.
fn call(
    alloc: Global,
    content: &Content,
    caller: u32,
    now: Moment,
    op: &Op,
) -> Result<Next, CoreRefusal>
    requires room { content.now.entries < 2 ^ 64 - 1 }
    requires counted { IsCounted content.now }

    ensures content { IfOk result (λ next. next.content
        ≡ steps.after content.now (Event.Call caller now op.now)) }
    ensures entry { IfOk result (λ next. next.prepared.entry
        ≡ steps.entry_of content.now (Event.Call caller now op.now)) }
    ensures moved { IfOk result (λ next. next.prepared.moved
        ≡ moved_keys (steps.changes_at content.now (Event.Call caller now op.now))) }
    ensures rows { IfOk result (λ next. next.prepared.rows
        ≡ steps.rows_at content.now (Event.Call caller now op.now)) }

    ensures there { OnOk result (waits.op_waits content.now op.now ≡ None) }
    ensures err { IfErr result (waits.Refuses content.now (Event.Call caller now op.now)) }
{
    let stepped = call_step(alloc, content, caller, now, op)?;
    Ok(call_event(alloc, content, caller, now, op, stepped)?)
}

/// What a caller's op leads to, or why it waits: for what isn't loaded, or for posts.
///
/// This jar's own rule: docs/DEFINITIONS.md.
fn call_step(
    alloc: Global,
    content: &Content,
    caller: u32,
    now: Moment,
    op: &Op,
) -> Result<Stepped, CoreRefusal>
    requires room { content.now.entries < 2 ^ 64 - 1 }
    requires counted { IsCounted content.now }

    ensures ok { IfOk result (λ s. s ≡ steps.call_step content.now caller now op.now) }
    ensures there { OnOk result (waits.op_waits content.now op.now ≡ None) }
    ensures err { IfErr result (waits.Refuses content.now (Event.Call caller now op.now)) }
{
    match standing_of(&content.loads, op) {
        Standing::Pending(need) => Err(CoreRefusal::Pending(need.awaited(alloc)?)),
        Standing::Lost(need) => Ok(fault(alloc, content, need)?),
        Standing::There => match op_wanting(content, op) {
            Some(found) => Err(CoreRefusal::NotYet { found }),
            None => Ok(op_step(alloc, content, caller, now, op)?),
        },
    }
}

/// What an op leads to, where what it needs is there.
fn op_step(
    alloc: Global,
    content: &Content,
    caller: u32,
    now: Moment,
    op: &Op,
) -> Result<Stepped, NoMemory>
    requires room { content.now.entries < 2 ^ 64 - 1 }
    requires counted { IsCounted content.now }
    ensures { IfOk result (λ s. s ≡ steps.op_step content.now caller now op.now) }
{
    match op {
        Op::Bind(key) => bind(alloc, content, key),
        Op::Set {
            cookie,
            script,
            secure,
        } => set(alloc, content, now, cookie, *script, *secure),
        Op::Get(request) => get(alloc, content, now, request),
        Op::Delete { key, id } => delete(alloc, content, now, key, id),
        Op::All => all(alloc, content, now),
        Op::Clear => clear(alloc, content, now),
        Op::Listen(scope) => listen(alloc, content, caller, scope),
        Op::Changes(number) => changes(alloc, content, caller, *number),
        Op::Unlisten(number) => unlisten(alloc, content, caller, *number),
        Op::Post => post(alloc, content, caller),
        Op::Hear { .. } => hear(alloc, content),
    }
}

/// What a caller's op makes of a content, where it led to this.
fn call_event(
    alloc: Global,
    content: &Content,
    caller: u32,
    now: Moment,
    op: &Op,
    stepped: Stepped,
) -> Result<Next, NoMemory>
    requires room { content.now.entries < 2 ^ 64 - 1 }
    requires counted { IsCounted content.now }
    requires step { stepped ≡ steps.call_step content.now caller now op.now }

    ensures content { IfOk result (λ next. next.content
        ≡ steps.after content.now (Event.Call caller now op.now)) }
    ensures entry { IfOk result (λ next. next.prepared.entry
        ≡ steps.entry_of content.now (Event.Call caller now op.now)) }
    ensures moved { IfOk result (λ next. next.prepared.moved
        ≡ moved_keys (steps.changes_at content.now (Event.Call caller now op.now))) }
    ensures rows { IfOk result (λ next. next.prepared.rows
        ≡ steps.rows_at content.now (Event.Call caller now op.now)) }
{
    let Stepped {
        content: next,
        reply,
        changes,
    } = stepped;
    let moved = moved(alloc, changes.as_slice())?;
    let rows = row_changes(alloc, &content.cookies, &next.cookies)?;
    let mut next = told_all(alloc, next, now, changes.as_slice(), rows.as_slice())?;
    next.count_call();
    let op = op.copy(alloc)?;
    let entry = Entry::Call {
        caller,
        now,
        op,
        reply,
    };
    Ok(Next {
        content: next,
        prepared: Prepared { entry, moved, rows },
    })
}

/// What the jar does itself makes of a content.
fn own_event(alloc: Global, content: &Content, own: &Own) -> Result<Next, NoMemory>
    requires room { content.now.entries < 2 ^ 64 - 1 }
    requires counted { IsCounted content.now }

    ensures content { IfOk result (λ next. next.content
        ≡ steps.after content.now (Event.Jar own.now)) }
    ensures entry { IfOk result (λ next. next.prepared.entry
        ≡ steps.entry_of content.now (Event.Jar own.now)) }
    ensures moved { IfOk result (λ next. next.prepared.moved
        ≡ moved_keys (steps.changes_at content.now (Event.Jar own.now))) }
    ensures rows { IfOk result (λ next. next.prepared.rows
        ≡ steps.rows_at content.now (Event.Jar own.now)) }
{
    let OwnStepped {
        content: next,
        changes,
    } = own_step(alloc, content, own)?;
    let moved = moved(alloc, changes.as_slice())?;
    let rows = own_rows(alloc, own, &content.cookies, &next.cookies)?;
    let now = own_moment(own);
    let mut next = told_all(alloc, next, now, changes.as_slice(), rows.as_slice())?;
    next.count_own();
    let entry = Entry::Jar(own.copy(alloc)?);
    Ok(Next {
        content: next,
        prepared: Prepared { entry, moved, rows },
    })
}

/// Listeners, cells and batches learn of the changes that were made at a moment.
fn told_all(
    alloc: Global,
    content: Content,
    now: Moment,
    changes: &[Change],
    rows: &[RowChange],
) -> Result<Content, NoMemory>
    requires versions { VersionsUpTo (2 ^ 64 - 2) content.bound }
    requires rows { IsStrictlySortedBy change_cmp rows.now }
    ensures { IfOk result (λ next. next
        ≡ steps.batched rows.now (steps.told now changes.now content)) }
{
    let mut next = told(alloc, content, now, changes)?;
    next.touch(alloc, rows)?;
    Ok(next)
}
