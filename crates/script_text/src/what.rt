//! What a step does.

ghost use Rattle.std.specs.Prelude.{◌≡◌, codes, IfOk};
ghost use Rattle.serde_json.specs.View.{view};
ghost use Rattle.script_text.specs.Readings as reading;
ghost use Rattle.script_text.specs.Members.{text_if, text_at, number_at};
ghost use Rattle.script_text.specs.Placed as placed;

use crate::ask::ask_of;
use crate::members::{number_at, text_at, text_if};
use crate::refused::ScriptRefusal;
use crate::spot::Spot;
use crate::step::What;
use crate::walk::place_if;
use crate::word::Word;
use jar_values::{NoMemory, Text};
use public_suffix::Suffixes;
use serde_json::Value;
use std::alloc::Global;

/// What a step does.
///
/// Refuses its first URL that is no place, then want of memory. This jar's own rule:
/// docs/DEFINITIONS.md.
pub fn what_of(
    alloc: Global,
    suffixes: &Suffixes,
    spot: Spot,
    value: &Value,
) -> Result<What, ScriptRefusal>
    ensures { placed.ReadsWhat suffixes.now spot
        (reading.what_of (view value.now)) result }
{
    match Word::of(text_at(value, "op")) {
        Word::Set => set_of(alloc, suffixes, spot, value),
        Word::Get => get_of(alloc, suffixes, spot, value),
        Word::Delete => Ok(delete_of(alloc, value)?),
        Word::All => Ok(What::All),
        Word::Clear => Ok(What::Clear),
        Word::Listen => listen_of(alloc, suffixes, spot, value),
        Word::Changes => Ok(What::Changes {
            listener: number_at(value, "listener"),
        }),
        Word::Unlisten => Ok(What::Unlisten {
            listener: number_at(value, "listener"),
        }),
        Word::Post => Ok(What::Post),
        Word::Hear => Ok(hear_of(value)),
        Word::Read => read_of(alloc, suffixes, spot, value),
        Word::Write => write_of(alloc, suffixes, spot, value),
    }
}

/// A set.
fn set_of(
    alloc: Global,
    suffixes: &Suffixes,
    spot: Spot,
    value: &Value,
) -> Result<What, ScriptRefusal>
    ensures { placed.ReadsWhat suffixes.now spot
        (reading.what_by Word.Set (view value.now)) result }
{
    match ask_of(alloc, suffixes, spot, value) {
        Ok(ask) => Ok(What::Set {
            ask,
            line: Text::of(alloc, text_at(value, "line"))?,
        }),
        Err(refusal) => Err(refusal),
    }
}

/// A get.
fn get_of(
    alloc: Global,
    suffixes: &Suffixes,
    spot: Spot,
    value: &Value,
) -> Result<What, ScriptRefusal>
    ensures { placed.ReadsWhat suffixes.now spot
        (reading.what_by Word.Get (view value.now)) result }
{
    match ask_of(alloc, suffixes, spot, value) {
        Ok(ask) => Ok(What::Get { ask }),
        Err(refusal) => Err(refusal),
    }
}

/// A delete.
fn delete_of(alloc: Global, value: &Value) -> Result<What, NoMemory>
    ensures { let d = view value.now in
        IfOk result (λ what. what ≡ What.Delete
        (text_at (codes "host") d) (text_at (codes "name") d) (text_at (codes "path") d)) }
{
    Ok(What::Delete {
        host: Text::of(alloc, text_at(value, "host"))?,
        name: Text::of(alloc, text_at(value, "name"))?,
        path: Text::of(alloc, text_at(value, "path"))?,
    })
}

/// A listen, which has what a step says of itself where it has a URL.
fn listen_of(
    alloc: Global,
    suffixes: &Suffixes,
    spot: Spot,
    value: &Value,
) -> Result<What, ScriptRefusal>
    ensures { placed.ReadsWhat suffixes.now spot
        (reading.what_by Word.Listen (view value.now)) result }
{
    let name = name_of(alloc, value)?;
    if value.get("url").is_none() {
        return Ok(What::Listen { ask: None, name });
    }
    match ask_of(alloc, suffixes, spot, value) {
        Ok(ask) => Ok(What::Listen {
            ask: Some(ask),
            name,
        }),
        Err(refusal) => Err(refusal),
    }
}

/// The name of a listen, where it has one.
fn name_of(alloc: Global, value: &Value) -> Result<Option<Text>, NoMemory>
    ensures { IfOk result (λ name. name ≡ text_if (codes "name") (view value.now)) }
{
    match text_if(value, "name") {
        Some(name) => Ok(Some(Text::of(alloc, name)?)),
        None => Ok(None),
    }
}

/// A hear.
fn hear_of(value: &Value) -> What
    ensures { let d = view value.now in
        result ≡ What.Hear (reading.actor_number d) (number_at (codes "n") d) }
{
    What::Hear {
        actor: number_at(value, "actor").min(u32::MAX as u64) as u32,
        n: number_at(value, "n"),
    }
}

/// A read.
fn read_of(
    alloc: Global,
    suffixes: &Suffixes,
    spot: Spot,
    value: &Value,
) -> Result<What, ScriptRefusal>
    ensures { placed.ReadsWhat suffixes.now spot
        (reading.what_by Word.Read (view value.now)) result }
{
    match place_if(alloc, suffixes, spot, "url", text_if(value, "url")) {
        Ok(url) => Ok(What::Read { url }),
        Err(refusal) => Err(refusal),
    }
}

/// A write.
fn write_of(
    alloc: Global,
    suffixes: &Suffixes,
    spot: Spot,
    value: &Value,
) -> Result<What, ScriptRefusal>
    ensures { placed.ReadsWhat suffixes.now spot
        (reading.what_by Word.Write (view value.now)) result }
{
    match place_if(alloc, suffixes, spot, "url", text_if(value, "url")) {
        Ok(url) => Ok(What::Write {
            line: Text::of(alloc, text_at(value, "line"))?,
            url,
        }),
        Err(refusal) => Err(refusal),
    }
}
