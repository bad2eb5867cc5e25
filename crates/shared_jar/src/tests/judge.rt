//! A journal is judged by a jar of one thread.

ghost use Rattle.std.specs.Prelude.{◌≡◌, ◌<◌, ◌+◌, ◌^◌, IfOk, IsTrue};
ghost use Rattle.jar_types.specs.Steps.{OwnMayStand};

use jar_types::{Entry, Event, JarCore, Journal, NoMemory, Prepared, Reply, Texts};
use locked_jar::Receipt;
use plain_jar::PlainJar;
use std::alloc::Global;
use std::test::Fail;

/// The event of an entry.
fn event_of(alloc: Global, entry: &Entry) -> Result<Event, NoMemory> {
    match entry {
        Entry::Call {
            caller,
            now,
            op,
            ..
        } => Ok(Event::Call {
            caller: *caller,
            now: *now,
            op: op.copy(alloc)?,
        }),
        Entry::Jar(own) => Ok(Event::Jar(own.copy(alloc)?)),
    }
}

/// Whether an event may come at this content, as far as that isn't for the core to say.
fn may_come<C: JarCore>(core: &C, event: &Event) -> bool
    ensures { IsTrue result → OwnMayStand (C.state core.now) event.now }
{
    match event {
        Event::Call { .. } => true,
        Event::Jar(own) => core.stands(own),
    }
}

/// What a reply says of these ops, by a word and a text.
fn words_of(reply: &Reply) -> (&str, &str) {
    match reply {
        Reply::Stored => ("stored", ""),
        Reply::Replaced => ("replaced", ""),
        Reply::Script { text, .. } => ("script", text.as_str()),
        _ => ("another", ""),
    }
}

/// Whether two replies say the same.
fn is_same(one: &Reply, other: &Reply) -> bool {
    let (word, text) = words_of(one);
    let (other_word, other_text) = words_of(other);
    word != "another" && word == other_word && text == other_text
}

/// The reply of an entry, if a caller made it.
fn reply_of(entry: &Entry) -> Option<&Reply> {
    match entry {
        Entry::Call { reply, .. } => Some(reply),
        Entry::Jar(_) => None,
    }
}

/// The event's entry, made ready at this content.
fn ready<C: JarCore>(alloc: Global, core: &mut C, event: &Event) -> Result<Prepared, Fail>
    requires room { (C.state core.old).entries < 2 ^ 63 }
    ensures ready { IfOk result (λ prepared. C.ready core.new prepared) }
    ensures same { C.state core.new ≡ C.state core.old }
{
    if !may_come(core, event) {
        return Err("the jar may not do this itself".into());
    }
    match core.prepare(alloc, event) {
        Ok(prepared) => Ok(prepared),
        Err(_) => Err("the event waits".into()),
    }
}

/// Whether an entry that was made ready has the reply of this one; the content takes its step.
#[tactic(auto, using(locked_jar::proofs::SameLemmas::event_entries))]
fn settles<C: JarCore>(core: &mut C, prepared: Prepared, entry: &Entry) -> bool
    requires ready { C.ready core.old prepared }
    ensures counted { (C.state core.new).entries ≡ (C.state core.old).entries + 1 }
{
    let (made, _) = core.settle(prepared);
    has_reply_of(&made, entry)
}

/// Whether two entries have the same reply, or none.
fn has_reply_of(made: &Entry, entry: &Entry) -> bool {
    match reply_of(made) {
        Some(one) => match reply_of(entry) {
            Some(other) => is_same(one, other),
            None => false,
        },
        None => reply_of(entry).is_none(),
    }
}

/// Whether the entry is the one that its event makes at this content, which takes the step.
fn judge<C: JarCore>(alloc: Global, core: &mut C, entry: &Entry) -> Result<bool, Fail>
    requires room { (C.state core.old).entries < 2 ^ 63 }
    ensures counted { IfOk result
        (λ _. (C.state core.new).entries ≡ (C.state core.old).entries + 1) }
{
    let Ok(event) = event_of(alloc, entry) else {
        return Err("no memory".into());
    };
    let prepared = ready(alloc, core, &event)?;
    Ok(settles(core, prepared, entry))
}

/// How many of these entries are those that their events make, from an empty jar on.
pub fn judged<C: JarCore + Drop>(
    alloc: Global,
    core: &mut C,
    journal: &Journal,
) -> Result<usize, Fail>
    requires empty { (C.state core.old).entries ≡ 0 }
{
    let mut good = 0usize;
    for entry in journal.as_slice() {
        if judge(alloc, core, entry)? {
            good = good.saturating_add(1);
        }
    }
    Ok(good)
}

/// An empty jar of one thread, in which each key is loaded.
#[tactic(auto, using(crate::proofs::CallerLemmas::no_texts_rise))]
pub fn empty(alloc: Global) -> Result<PlainJar, NoMemory>
    ensures { IfOk result (λ core. core.state.entries ≡ 0) }
{
    PlainJar::fresh(alloc, Texts::new(alloc))
}

/// Whether the entry at a place is the caller's, and has this reply.
pub fn stands_at(journal: &Journal, caller: u32, receipt: &Receipt) -> bool {
    let Some(index) = receipt.place.checked_sub(1) else {
        return false;
    };
    match journal.get(index as usize) {
        Some(
            Entry::Call {
                caller: by,
                reply,
                ..
            },
        ) => *by == caller && is_same(reply, &receipt.reply),
        _ => false,
    }
}
