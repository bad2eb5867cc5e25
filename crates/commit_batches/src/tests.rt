//! Changes that wait and overlays at worked values, with ample memory.

use crate::{MOST_PENDING, Pending, overlay};
use jar_types::{CookieId, NoMemory, Row, RowChange, RowChanges, Text};
use std::alloc::Global;
use std::test::Fail;

/// The host, the name and the path of an id.
type Parts = (&'static str, &'static str, &'static str);

/// A change of the row of an id: its new value, or none where it goes.
#[derive(Clone, Copy, Drop)]
struct Step {
    parts: Parts,
    value: Option<&'static str>,
}

/// The row of the host `h.test` and the path `/` that has this name gets a value.
fn put(name: &'static str, value: &'static str) -> Step {
    put_at(("h.test", name, "/"), value)
}

/// The row of these parts gets a value.
fn put_at(parts: Parts, value: &'static str) -> Step {
    Step {
        parts,
        value: Some(value),
    }
}

/// The row of the host `h.test` and the path `/` that has this name goes.
fn gone(name: &'static str) -> Step {
    Step {
        parts: ("h.test", name, "/"),
        value: None,
    }
}

/// The id of these parts.
fn id(alloc: Global, parts: Parts) -> Result<CookieId, NoMemory> {
    Ok(CookieId {
        host: Text::of(alloc, parts.0)?,
        name: Text::of(alloc, parts.1)?,
        path: Text::of(alloc, parts.2)?,
    })
}

/// A row of these parts and this value.
fn row(alloc: Global, parts: Parts, value: &str) -> Result<Row, NoMemory> {
    Ok(Row {
        host: Text::of(alloc, parts.0)?,
        name: Text::of(alloc, parts.1)?,
        path: Text::of(alloc, parts.2)?,
        value: Text::of(alloc, value)?,
        creation: 0,
        expiry: 9,
        access: 0,
        secure: 0,
        http_only: 0,
        same_site: 0,
        priority: 1,
    })
}

/// What waits after these steps.
fn pending_of(alloc: Global, steps: &[Step]) -> Result<Pending, NoMemory> {
    let mut pending = Pending::fresh(alloc);
    for step in steps {
        pending.reserve(1)?;
        match step.value {
            Some(value) => pending.put(row(alloc, step.parts, value)?),
            None => pending.drop_row(id(alloc, step.parts)?),
        }
    }
    Ok(pending)
}

/// The changes of these steps, in their order.
fn changes_of(alloc: Global, steps: &[Step]) -> Result<RowChanges, NoMemory> {
    let mut changes = RowChanges::new(alloc);
    for step in steps {
        let change = match step.value {
            Some(value) => RowChange::Put(row(alloc, step.parts, value)?),
            None => RowChange::Drop(id(alloc, step.parts)?),
        };
        changes.push(change)?;
    }
    Ok(changes)
}

/// Changes as a text: of each the host, the name and the path, and the value or `gone`.
fn shown(alloc: Global, changes: &[RowChange]) -> Result<String, NoMemory> {
    let mut text = String::new(alloc);
    for change in changes {
        let (host, name, path, value) = match change {
            RowChange::Put(row) => (&row.host, &row.name, &row.path, row.value.as_str()),
            RowChange::Drop(id) => (&id.host, &id.name, &id.path, "gone"),
        };
        for part in [host.as_str(), name.as_str(), path.as_str(), value] {
            text.push_str(part)?;
            text.push_str(" ")?;
        }
    }
    Ok(text)
}

/// Whether just these changes wait after these steps.
fn waits(alloc: Global, steps: &[Step], due: &str) -> Result<bool, NoMemory> {
    let pending = pending_of(alloc, steps)?;
    let text = shown(alloc, pending.as_slice())?;
    Ok(text.as_str() == due)
}

#[test]
fn changes_are_in_the_order_of_host_name_and_path(rt: HostRuntime) -> Result<(), Fail> {
    let steps = [
        put_at(("b.test", "a", "/"), "1"),
        put_at(("a.test", "b", "/x"), "2"),
        put_at(("a.test", "b", "/"), "3"),
        put_at(("a.test", "a", "/y"), "4"),
    ];
    let due = "a.test a /y 4 a.test b / 3 a.test b /x 2 b.test a / 1 ";
    assert!(rt; waits(rt.alloc(), &steps, due)?);
    Ok(())
}

#[test]
fn the_newest_change_of_an_id_stays(rt: HostRuntime) -> Result<(), Fail> {
    let alloc = rt.alloc();
    assert!(rt;
        waits(alloc, &[put("a", "1"), put("a", "2")], "h.test a / 2 ")?,
        "put, put"
    );
    assert!(rt;
        waits(alloc, &[put("a", "1"), gone("a")], "h.test a / gone ")?,
        "put, gone"
    );
    assert!(rt;
        waits(alloc, &[gone("a"), put("a", "2")], "h.test a / 2 ")?,
        "gone, put"
    );
    assert!(rt;
        waits(alloc, &[gone("a"), gone("a")], "h.test a / gone ")?,
        "gone, gone"
    );
    Ok(())
}

/// What waits where the changes of more steps were added to those of some.
fn added(alloc: Global, steps: &[Step], more: &[Step]) -> Result<String, NoMemory> {
    let mut pending = pending_of(alloc, steps)?;
    let changes = changes_of(alloc, more)?;
    pending.reserve(changes.len())?;
    pending.add(changes);
    shown(alloc, pending.as_slice())
}

#[test]
fn changes_in_any_order_are_added(rt: HostRuntime) -> Result<(), Fail> {
    let steps = [put("b", "1"), put("c", "1")];
    let more = [
        put("d", "2"),
        gone("c"),
        put("a", "2"),
        put("c", "3"),
        gone("d"),
    ];
    let text = added(rt.alloc(), &steps, &more)?;
    assert_eq!(rt;
        text.as_str(),
        "h.test a / 2 h.test b / 1 h.test c / 3 h.test d / gone "
    );
    Ok(())
}

/// So many changes of different ids, which are their numbers.
fn many(alloc: Global, count: usize) -> Result<Pending, NoMemory> {
    let mut pending = Pending::fresh(alloc);
    pending.reserve(count)?;
    for number in 0..count {
        pending.reserve(1)?;
        let mut id = id(alloc, ("h.test", "a", "/"))?;
        id.path = Text::from_string(format!(in alloc; "/{number}")?)?;
        pending.drop_row(id);
    }
    Ok(pending)
}

#[test]
fn a_commit_is_due_from_512_ids_on(rt: HostRuntime) -> Result<(), Fail> {
    let mut pending = many(rt.alloc(), 511)?;
    assert_eq!(rt; pending.count(), 511);
    assert!(rt; !pending.due());
    pending.reserve(2)?;
    pending.drop_row(id(rt.alloc(), ("h.test", "a", "/7"))?);
    assert!(rt; !pending.due(), "an id that has a change");
    pending.drop_row(id(rt.alloc(), ("h.test", "a", "/511"))?);
    assert!(rt; pending.due(), "an id that has none");
    assert_eq!(rt; MOST_PENDING, 512);
    Ok(())
}

#[test]
fn what_waits_is_taken_once(rt: HostRuntime) -> Result<(), Fail> {
    let mut pending = pending_of(rt.alloc(), &[put("b", "1"), gone("a")])?;
    let taken = pending.take();
    let text = shown(rt.alloc(), taken.as_slice())?;
    assert_eq!(rt; text.as_str(), "h.test a / gone h.test b / 1 ");
    assert_eq!(rt; pending.count(), 0);
    assert_eq!(rt; pending.take().len(), 0);
    Ok(())
}

#[test]
fn a_copy_is_the_same(rt: HostRuntime) -> Result<(), Fail> {
    let pending = pending_of(rt.alloc(), &[put("b", "1"), gone("a")])?;
    let copy = pending.copy(rt.alloc())?;
    let text = shown(rt.alloc(), copy.as_slice())?;
    assert_eq!(rt; text.as_str(), "h.test a / gone h.test b / 1 ");
    Ok(())
}

/// The changes of some steps overlaid by those of newer ones.
fn overlaid(alloc: Global, older: &[Step], newer: &[Step]) -> Result<String, NoMemory> {
    let older = pending_of(alloc, older)?.take();
    let newer = pending_of(alloc, newer)?;
    let both = overlay(alloc, &older, &newer)?;
    shown(alloc, both.as_slice())
}

#[test]
fn an_overlay_has_the_newer_change_of_each_id(rt: HostRuntime) -> Result<(), Fail> {
    let older = [put("a", "1"), put("c", "1"), gone("d"), put("f", "1")];
    let newer = [put("b", "2"), gone("c"), put("d", "2"), gone("e")];
    let both = overlaid(rt.alloc(), &older, &newer)?;
    let due =
        "h.test a / 1 h.test b / 2 h.test c / gone h.test d / 2 h.test e / gone h.test f / 1 ";
    assert_eq!(rt; both.as_str(), due);
    let both = overlaid(rt.alloc(), &[], &newer)?;
    assert_eq!(rt;
        both.as_str(),
        "h.test b / 2 h.test c / gone h.test d / 2 h.test e / gone "
    );
    let both = overlaid(rt.alloc(), &older, &[])?;
    assert_eq!(rt;
        both.as_str(),
        "h.test a / 1 h.test c / 1 h.test d / gone h.test f / 1 "
    );
    Ok(())
}

#[test]
fn what_waits_stays_where_memory_is_wanting(rt: HostRuntime) -> Result<(), Fail> {
    let mut pending = pending_of(rt.alloc(), &[put("a", "1")])?;
    assert!(rt; pending.reserve(usize::MAX).is_err());
    let text = shown(rt.alloc(), pending.as_slice())?;
    assert_eq!(rt; text.as_str(), "h.test a / 1 ");
    Ok(())
}
