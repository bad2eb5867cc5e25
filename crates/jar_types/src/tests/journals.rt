//! Events, entries and journals, copied.

use super::owns::number_of;
use super::{id, moment, request, text};
use crate::{
    Cookies, Entry, Event, Journal, Op, Own, Prepared, Reply, RowChange, RowChanges, Text, Texts,
};
use std::alloc::Global;
use std::process::Abort;

/// The moment of an event in milliseconds.
fn event_moment(event: &Event) -> u64 {
    match event {
        Event::Call { now, .. } => now.ms(),
        Event::Jar(own) => number_of(own),
    }
}

/// The moment of a copy of an event in milliseconds.
fn copied_moment(rt: &impl Abort, alloc: Global, event: Event) -> u64 {
    let copy = event.copy(alloc).expect(rt, "memory for a copy");
    let moment = event_moment(&copy);
    drop(event);
    drop(copy);
    moment
}

#[test]
fn a_copied_call_is_the_same(rt: HostRuntime) {
    let call = Event::Call {
        caller: 1,
        now: moment(&rt, 7),
        op: Op::Get(request(&rt, rt.alloc())),
    };
    assert_eq!(rt; copied_moment(&rt, rt.alloc(), call), 7);
}

#[test]
fn a_copied_event_of_the_jar_is_the_same(rt: HostRuntime) {
    let whole = Event::Jar(Own::Whole(moment(&rt, 8)));
    assert_eq!(rt; copied_moment(&rt, rt.alloc(), whole), 8);
}

/// The moment of an entry in milliseconds.
fn entry_moment(entry: &Entry) -> u64 {
    match entry {
        Entry::Call { now, .. } => now.ms(),
        Entry::Jar(own) => number_of(own),
    }
}

/// A Get of caller 1 at 7 that got nothing, as an entry.
fn entry(rt: &impl Abort, alloc: Global) -> Entry {
    Entry::Call {
        caller: 1,
        now: moment(rt, 7),
        op: Op::Get(request(rt, alloc)),
        reply: Reply::Cookies(Cookies::new(alloc)),
    }
}

/// A journal of that call, behind which the jar became whole at 8.
fn journal(rt: &impl Abort, alloc: Global) -> Journal {
    let mut journal = Journal::new(alloc);
    journal.reserve(1).expect(rt, "memory for an entry");
    journal.add(entry(rt, alloc));
    let whole = Entry::Jar(Own::Whole(moment(rt, 8)));
    journal.push(whole).expect(rt, "memory for an entry");
    journal
}

#[test]
fn a_copied_journal_has_the_same_entries(rt: HostRuntime) {
    let journal = journal(&rt, rt.alloc());
    let mut copy = journal.copy(rt.alloc()).expect(&rt, "memory for a copy");
    drop(journal);
    assert_eq!(rt; copy.len(), 2);
    assert_eq!(rt; copy.get(0).map(entry_moment), Some(7));
    assert_eq!(rt; copy.get(1).map(entry_moment), Some(8));
    let last = copy.pop();
    assert!(rt; last.is_some());
    drop(last);
    assert_eq!(rt; copy.len(), 1);
}

/// A row that is dropped.
fn dropped(rt: &impl Abort, alloc: Global) -> RowChanges {
    let mut rows = RowChanges::new(alloc);
    rows.push(RowChange::Drop(id(rt, alloc, ("h.test", "a", "/"))))
        .expect(rt, "memory for a list");
    rows
}

/// The host of a row that is dropped; `put` where one is put.
fn host_of(change: &RowChange) -> &str {
    match change {
        RowChange::Put(_) => "put",
        RowChange::Drop(id) => id.host.as_str(),
    }
}

/// That call, made ready, as if it had changed cookies of `h.test`, of which one had a row.
fn prepared(rt: &impl Abort, alloc: Global) -> Prepared {
    let mut moved = Texts::new(alloc);
    moved
        .push(text(rt, alloc, "h.test"))
        .expect(rt, "memory for a list");
    Prepared {
        entry: entry(rt, alloc),
        moved,
        rows: dropped(rt, alloc),
    }
}

#[test]
fn a_copied_entry_that_was_made_ready_is_the_same(rt: HostRuntime) {
    let prepared = prepared(&rt, rt.alloc());
    let copy = prepared.copy(rt.alloc()).expect(&rt, "memory for a copy");
    assert_eq!(rt; entry_moment(&copy.entry), 7);
    assert_eq!(rt; copy.moved.get(0).map(Text::as_str), Some("h.test"));
    assert_eq!(rt; copy.rows.get(0).map(host_of), Some("h.test"));
    drop(prepared);
    drop(copy);
}
