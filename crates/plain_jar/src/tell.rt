//! How listeners and cells learn of changes.

ghost use Rattle.std.specs.Prelude.{◌≡◌, ◌-◌, ◌^◌, IfOk, filter, map};
ghost use Rattle.jar_types.specs.Counts.{VersionsUpTo};
ghost use Rattle.jar_types.specs.Listeners as listening;
ghost use Rattle.jar_types.specs.Steps as steps;

use crate::content::Content;
use crate::version::turned;
use jar_types::{Change, Changes, Cookie, Listener, Listeners, Moment, NoMemory, Scope};
use site_match::matches;
use std::alloc::Global;

/// Listeners hear of the changes that were made at a moment, and the cells of their keys turn.
///
/// This jar's own rule: docs/DEFINITIONS.md.
pub fn told(
    alloc: Global,
    content: Content,
    now: Moment,
    changes: &[Change],
) -> Result<Content, NoMemory>
    requires { VersionsUpTo (2 ^ 64 - 2) content.bound }
    ensures { IfOk result (λ next. next ≡ steps.told now changes.now content) }
{
    let Content {
        cookies,
        loads,
        bound,
        posts,
        listens,
        listeners,
        batches,
        calls,
        entries,
    } = content;
    Ok(Content {
        cookies,
        loads,
        bound: turned(bound, changes),
        posts,
        listens,
        listeners: hearing(alloc, listeners, now, changes)?,
        batches,
        calls,
        entries,
    })
}

/// The listeners behind these changes.
fn hearing(
    alloc: Global,
    listeners: Listeners,
    now: Moment,
    changes: &[Change],
) -> Result<Listeners, NoMemory>
    ensures { IfOk result (λ all. all ≡ map (listening.hears now changes.now) listeners) }
{
    let mut all = Vec::new(alloc);
    for listener in listeners.into_vec() {
        all.push(heard(alloc, listener, now, changes)?)?;
    }
    Ok(Listeners::from_vec(all))
}

/// A listener behind these changes.
fn heard(
    alloc: Global,
    listener: Listener,
    now: Moment,
    changes: &[Change],
) -> Result<Listener, NoMemory>
    ensures { IfOk result (λ l. l ≡ listening.hears now changes.now listener) }
{
    let Listener {
        caller,
        number,
        scope,
        untaken,
    } = listener;
    let mut new = admitted(alloc, &scope, now, changes)?;
    let mut all = untaken.into_vec();
    all.append(&mut new)?;
    Ok(Listener {
        caller,
        number,
        scope,
        untaken: Changes::from_vec(all),
    })
}

/// Those of the changes that a scope admits.
fn admitted(
    alloc: Global,
    scope: &Scope,
    now: Moment,
    changes: &[Change],
) -> Result<Vec<Change>, NoMemory>
    ensures { IfOk result (λ all. all.items ≡ listening.admitted scope.now now changes.now) }
{
    let mut all = Vec::new(alloc);
    for change in changes {
        if admits(scope, now, &change.cookie) {
            all.push(change.copy(alloc)?)?;
        }
    }
    Ok(all)
}

/// Whether a scope admits a cookie at a moment.
fn admits(scope: &Scope, now: Moment, cookie: &Cookie) -> bool
    ensures { result ≡ listening.admits scope.now now cookie.now }
{
    match scope {
        Scope::All => true,
        Scope::Seen(request) => matches(request, cookie, now),
        Scope::Named(request, name) => matches(request, cookie, now) && cookie.name == *name,
    }
}
