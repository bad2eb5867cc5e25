//! Jars that are asked rows, one after another.

ghost use Rattle.std.specs.Prelude.{◌≡◌, ◌+◌, ◌-◌, ◌^◌, ◌<◌, ◌≤◌, IfOk, length};
ghost use Rattle.std.specs.List.Sorted.{IsStrictlySortedBy};
ghost use Rattle.jar_types.specs.Ids.{text_cmp};
ghost use Rattle.jar_types.specs.Steps.{OwnMayStand};

use super::asks::{moment, op, own};
use super::rows::{Kind, Row};
use super::words::{counted, entry_text, moved_text, named, rows_text, wish_text, word};
use crate::PlainJar;
use jar_types::{
    Awaited, CoreRefusal, Event, JarCore, Moment, NoMemory, Own, Prepared, Text, Texts,
};
use std::alloc::Global;

/// What was made ready for a row, in words.
fn prepared_text(alloc: Global, row: &Row, prepared: &Prepared) -> Result<String, NoMemory> {
    if row.moved {
        moved_text(alloc, &prepared.moved)
    } else {
        entry_text(alloc, row.kind, &prepared.entry)
    }
}

/// Why nothing was made ready, in words, unless memory was wanting.
fn refused_text(alloc: Global, refusal: CoreRefusal) -> Result<String, NoMemory> {
    match refusal {
        CoreRefusal::Pending(Awaited::Key(key)) => named(alloc, "pending", &key),
        CoreRefusal::Pending(Awaited::All) => word(alloc, "pending all;"),
        CoreRefusal::NotYet { found } => counted(alloc, "not yet", found),
        CoreRefusal::NoMemory => Err(NoMemory),
    }
}

/// What was settled of a row, in words.
#[tactic(auto, using(crate::proofs::EntryLemmas::entries_rise))]
fn settled<C: JarCore>(
    alloc: Global,
    core: &mut C,
    row: &Row,
    prepared: Prepared,
) -> Result<String, NoMemory>
    requires ready { C.ready core.old prepared }
    ensures { (C.state core.new).entries ≤ (C.state core.old).entries + 1 }
{
    let text = prepared_text(alloc, row, &prepared);
    let (entry, rows) = core.settle(prepared);
    drop(entry);
    if row.rows {
        return rows_text(alloc, &rows);
    }
    text
}

/// What a core makes of the event of a row, in words.
fn told<C: JarCore>(
    alloc: Global,
    core: &mut C,
    row: &Row,
    event: &Event,
) -> Result<String, NoMemory>
    requires room { (C.state core.old).entries < 2 ^ 64 - 1 }
    requires stands { OwnMayStand (C.state core.old) event.now }
    ensures { (C.state core.new).entries ≤ (C.state core.old).entries + 1 }
{
    match core.prepare(alloc, event) {
        Ok(prepared) => settled(alloc, core, row, prepared),
        Err(refusal) => refused_text(alloc, refusal),
    }
}

/// What a core makes of the op of a row.
fn call<C: JarCore>(alloc: Global, core: &mut C, row: &Row, now: Moment) -> Result<String, NoMemory>
    requires { (C.state core.old).entries < 2 ^ 64 - 1 }
    ensures { (C.state core.new).entries ≤ (C.state core.old).entries + 1 }
{
    let event = Event::Call {
        caller: row.caller,
        now,
        op: op(alloc, row, now)?,
    };
    told(alloc, core, row, &event)
}

/// What a core makes of what the jar does itself, where it may.
fn own_told<C: JarCore>(
    alloc: Global,
    core: &mut C,
    row: &Row,
    own: Own,
) -> Result<String, NoMemory>
    requires { (C.state core.old).entries < 2 ^ 64 - 1 }
    ensures { (C.state core.new).entries ≤ (C.state core.old).entries + 1 }
{
    if !core.stands(&own) {
        return word(alloc, "no;");
    }
    told(alloc, core, row, &Event::Jar(own))
}

/// What a core makes of the event of a row.
fn happened<C: JarCore>(alloc: Global, core: &mut C, row: &Row) -> Result<String, NoMemory>
    requires { (C.state core.old).entries < 2 ^ 64 - 1 }
    ensures { (C.state core.new).entries ≤ (C.state core.old).entries + 1 }
{
    let now = moment(row.now)?;
    match own(alloc, row, now)? {
        Some(own) => own_told(alloc, core, row, own),
        None => call(alloc, core, row, now),
    }
}

/// The cell of a key, in words.
fn cell<C: JarCore>(alloc: Global, core: &C, key: &'static str) -> Result<String, NoMemory> {
    match core.cell_of(key) {
        Some(cell) => counted(alloc, "cell", u64::from(cell)),
        None => word(alloc, "no cell;"),
    }
}

/// Whether a caller waits for this, in words.
fn wanted<C: JarCore>(alloc: Global, core: &C, awaited: &Awaited) -> Result<String, NoMemory> {
    if core.is_wanted(awaited) {
        word(alloc, "wanted;")
    } else {
        word(alloc, "not wanted;")
    }
}

/// What a core makes of a row, in words.
fn answered<C: JarCore>(alloc: Global, core: &mut C, row: &Row) -> Result<String, NoMemory>
    requires { (C.state core.old).entries < 2 ^ 64 - 1 }
    ensures { (C.state core.new).entries ≤ (C.state core.old).entries + 1 }
{
    match row.kind {
        Kind::Cell => cell(alloc, core, row.key),
        Kind::Next => wish_text(alloc, core.next_load()),
        Kind::Wanted => wanted(alloc, core, &Awaited::Key(Text::of(alloc, row.key)?)),
        Kind::AllWanted => wanted(alloc, core, &Awaited::All),
        _ => happened(alloc, core, row),
    }
}

/// What a core makes of these rows, one after another.
pub fn replies<C: JarCore>(alloc: Global, core: &mut C, rows: &[Row]) -> Result<String, NoMemory>
    requires { (C.state core.old).entries + length rows.now < 2 ^ 64 - 1 }
{
    let mut text = String::new(alloc);
    for row in rows {
        let part = answered(alloc, core, row)?;
        text.push_str(part.as_str())?;
    }
    Ok(text)
}

/// A jar without stored cookies.
pub fn fresh(alloc: Global) -> Result<PlainJar, NoMemory>
    ensures { IfOk result (λ jar. jar.state.entries ≡ 0) }
{
    PlainJar::fresh(alloc, Texts::new(alloc))
}

/// What a fresh jar makes of these rows, in words.
pub fn all_replies(alloc: Global, rows: &[Row]) -> Result<String, NoMemory>
    requires { length rows.now < 2 ^ 64 - 1 }
{
    let mut jar = fresh(alloc)?;
    replies(alloc, &mut jar, rows)
}

/// The keys `h.test` and `i.test`.
fn stored_keys(alloc: Global) -> Result<Texts, NoMemory>
    ensures { IfOk result (λ keys. IsStrictlySortedBy text_cmp keys) }
{
    let mut keys = Texts::new(alloc);
    keys.push(Text::of(alloc, "h.test")?)?;
    keys.push(Text::of(alloc, "i.test")?)?;
    Ok(keys)
}

/// What a jar makes of these rows, in words, in which `h.test` and `i.test` aren't loaded.
fn replies_of_stored(alloc: Global, rows: &[Row]) -> Result<String, NoMemory>
    requires { length rows.now < 2 ^ 64 - 1 }
{
    let mut jar = PlainJar::fresh(alloc, stored_keys(alloc)?)?;
    replies(alloc, &mut jar, rows)
}

/// Whether a jar makes this of these rows in which `h.test` and `i.test` aren't loaded.
pub fn gives_of_stored(alloc: Global, rows: &[Row], due: &str) -> Result<bool, NoMemory>
    requires { length rows.now < 2 ^ 64 - 1 }
{
    let text = replies_of_stored(alloc, rows)?;
    Ok(text.as_str() == due)
}

/// Whether a fresh jar makes this of these rows.
pub fn gives(alloc: Global, rows: &[Row], due: &str) -> Result<bool, NoMemory>
    requires { length rows.now < 2 ^ 64 - 1 }
{
    let text = all_replies(alloc, rows)?;
    Ok(text.as_str() == due)
}
