//! Listeners: how they are registered, asked and ended.

ghost use Rattle.std.specs.Prelude.{◌≡◌, ◌-◌, ◌^◌, IfOk, [], filter, not, option_copied, if◌then◌else◌};
ghost use Rattle.std.specs.List.{list_any};
ghost use Rattle.jar_types.specs.Counts.{TalliesUpTo};
ghost use Rattle.jar_types.specs.Listeners as listening;

use crate::content::Content;
use crate::stepped::Stepped;
use crate::tally::{counted, tally_of};
use jar_types::{Changes, Listener, Listeners, NoMemory, Reply, Scope};
use std::alloc::Global;

/// The caller has one listener more, whose number counts all that this caller registered.
///
/// This jar's own rule: docs/DEFINITIONS.md.
pub fn listen(
    alloc: Global,
    content: &Content,
    caller: u32,
    scope: &Scope,
) -> Result<Stepped, NoMemory>
    requires { TalliesUpTo (2 ^ 64 - 2) content.now.listens }
    ensures { IfOk result (λ s. s ≡ listening.listen_step content.now caller scope.now) }
{
    let mut next = content.copy(alloc)?;
    next.listens = counted(alloc, &content.listens, caller)?;
    let number = tally_of(next.listens.as_slice(), caller);
    let new = registered(alloc, caller, number, scope)?;
    next.listeners.push(new)?;
    Ok(Stepped {
        content: next,
        reply: Reply::Listener(number),
        changes: Vec::new(alloc),
    })
}

/// A listener that was just registered.
fn registered(alloc: Global, caller: u32, number: u64, scope: &Scope) -> Result<Listener, NoMemory>
    ensures { IfOk result (λ l. l ≡ listening.registered caller number scope.now) }
{
    Ok(Listener {
        caller,
        number,
        scope: scope.copy(alloc)?,
        untaken: Changes::new(alloc),
    })
}

/// A listener takes its changes.
///
/// This jar's own rule: docs/DEFINITIONS.md.
pub fn changes(
    alloc: Global,
    content: &Content,
    caller: u32,
    number: u64,
) -> Result<Stepped, NoMemory>
    ensures { IfOk result (λ s. s ≡ listening.changes_step content.now caller number) }
{
    let mut next = content.copy(alloc)?;
    next.listeners = taken_at(alloc, content.listeners.copy(alloc)?, caller, number)?;
    let reply = taken_reply(
        alloc,
        listener_at(content.listeners.as_slice(), caller, number),
    )?;
    Ok(Stepped {
        content: next,
        reply,
        changes: Vec::new(alloc),
    })
}

/// The listener of a caller that has a number; none where it was never registered, or has ended.
fn listener_at(listeners: &[Listener], caller: u32, number: u64) -> Option<&Listener>
    ensures { option_copied result ≡ listening.listener_at caller number listeners.now }
{
    listeners
        .iter()
        .find(|listener| is_listener(listener, caller, number))
}

/// Whether a listener is the one of a caller that has a number.
fn is_listener(listener: &Listener, caller: u32, number: u64) -> bool
    ensures { result ≡ listening.is_listener caller number listener.now }
{
    listener.caller == caller && listener.number == number
}

/// The changes that a listener had not taken, as a reply.
fn taken_reply(alloc: Global, listener: Option<&Listener>) -> Result<Reply, NoMemory>
    ensures { IfOk result (λ reply. reply ≡ listening.taken_reply (option_copied listener.entry)) }
{
    match listener {
        Some(listener) => Ok(Reply::Changes(listener.untaken.copy(alloc)?)),
        None => Ok(Reply::NoListener),
    }
}

/// The listeners, of which one has taken all its changes.
fn taken_at(
    alloc: Global,
    listeners: Listeners,
    caller: u32,
    number: u64,
) -> Result<Listeners, NoMemory>
    ensures { IfOk result (λ all. all ≡ listening.taken_at caller number listeners) }
{
    let mut all = Vec::new(alloc);
    for listener in listeners.into_vec() {
        all.push(taken(alloc, listener, caller, number))?;
    }
    Ok(Listeners::from_vec(all))
}

/// A listener, without changes where it is the one that takes them.
fn taken(alloc: Global, listener: Listener, caller: u32, number: u64) -> Listener
    ensures { result ≡ if listening.is_listener caller number listener
        then record listener { untaken = [] } else listener }
{
    if is_listener(&listener, caller, number) {
        Listener {
            untaken: Changes::new(alloc),
            ..listener
        }
    } else {
        listener
    }
}

/// A listener ends.
///
/// This jar's own rule: docs/DEFINITIONS.md.
pub fn unlisten(
    alloc: Global,
    content: &Content,
    caller: u32,
    number: u64,
) -> Result<Stepped, NoMemory>
    ensures { IfOk result (λ s. s ≡ listening.unlisten_step content.now caller number) }
{
    let mut next = content.copy(alloc)?;
    next.listeners = without(content.listeners.copy(alloc)?, caller, number);
    let there = has_listener(content.listeners.as_slice(), caller, number);
    Ok(Stepped {
        content: next,
        reply: Reply::Flag(there),
        changes: Vec::new(alloc),
    })
}

/// Whether the listener of a caller that has a number is there.
fn has_listener(listeners: &[Listener], caller: u32, number: u64) -> bool
    ensures { result ≡ list_any (listening.is_listener caller number) listeners.now }
{
    listeners
        .iter()
        .any(|listener| is_listener(listener, caller, number))
}

/// The listeners without the one of a caller that has a number.
fn without(listeners: Listeners, caller: u32, number: u64) -> Listeners
    ensures { result ≡ filter (λ l. not (listening.is_listener caller number l)) listeners }
{
    let mut left = listeners.into_vec();
    take_out(&mut left, caller, number);
    Listeners::from_vec(left)
}

/// Takes out the listener of a caller that has a number.
fn take_out(listeners: &mut Vec<Listener>, caller: u32, number: u64)
    ensures { listeners.new.items
        ≡ filter (λ l. not (listening.is_listener caller number l)) listeners.old.items }
{
    listeners.retain(|listener| !is_listener(listener, caller, number));
}
