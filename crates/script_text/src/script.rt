//! Scripts.

ghost use Rattle.std.specs.Prelude.{◌≡◌, IfOk, MatchResult};
ghost use Rattle.serde_json.specs.View.{view};
ghost use Rattle.script_text.specs.Admitted.{IsAdmitted};
ghost use Rattle.script_text.specs.Deadlocks.{HasNoDeadlock};
ghost use Rattle.script_text.specs.Scripts as spec;

use crate::actor::Actors;
use crate::counts::too_many;
use crate::deadlock::{Waiting, deadlock};
use crate::form::script_form;
use crate::reader::script_of;
use crate::refused::{Refusal, Refused, ScriptRefusal};
use crate::spot::Spot;
use jar_values::{Moment, NoMemory, Text};
use json_form::{Pass, first_misfit};
use public_suffix::Suffixes;
use serde_json::Value;
use std::alloc::Global;

/// The most entries that a script may leave to its callers, and how many it does where it says
/// nothing of them.
///
/// This jar's own rule: docs/DEFINITIONS.md.
pub const MOST_LIMIT: u64 = 1_000_000;

/// A script: its suffix list, the moment at which the jar opens, how many entries its callers may
/// have, and its actors.
///
/// This jar's own rule: docs/DEFINITIONS.md.
#[derive(Drop)]
pub struct Script {
    pub suffixes: Suffixes,
    pub start: Moment,
    pub limit: u64,
    pub actors: Actors,
}

impl Script {
    /// The script of a whole text.
    ///
    /// Refuses what is no JSON text, and then as [`Script::of_json`] does. This jar's own rule:
    /// docs/DEFINITIONS.md.
    pub fn read(alloc: Global, bytes: &[u8]) -> Result<Script, ScriptRefusal>
        ensures reads { spec.ReadsScript bytes.now result }
        ensures admitted { IfOk result IsAdmitted }
    {
        match Value::from_slice(alloc, bytes) {
            Ok(value) => Script::of_json(alloc, &value),
            Err(error) if error.is_memory() => Err(ScriptRefusal::NoMemory),
            Err(_) => Err(not_json(alloc)?),
        }
    }

    /// The script that a JSON value says.
    ///
    /// Refuses another form, then too many actors or steps, then a moment out of range, then a bad
    /// suffix list, then the first URL that is no place, then a deadlock, then want of memory. This
    /// jar's own rule: docs/DEFINITIONS.md.
    pub fn of_json(alloc: Global, value: &Value) -> Result<Script, ScriptRefusal>
        ensures reads { spec.ReadsData (view value.now) result }
        ensures admitted { IfOk result IsAdmitted }
    {
        script_in(alloc, value)
    }
}

/// The script that a JSON value says, as [`Script::of_json`] refuses others.
fn script_in(alloc: Global, value: &Value) -> Result<Script, ScriptRefusal>
    ensures { spec.ReadsData (view value.now) result }
{
    if let Some(refused) = misfit_in(alloc, value)? {
        return Err(ScriptRefusal::Refused(refused));
    }
    match script_of(alloc, value) {
        Ok(script) => without_deadlock(alloc, script),
        Err(refusal) => Err(refusal),
    }
}

/// The refusal of what is no JSON text.
fn not_json(alloc: Global) -> Result<ScriptRefusal, NoMemory>
    ensures { IfOk result (λ refusal. refusal ≡ ScriptRefusal.Refused spec.not_json) }
{
    Ok(ScriptRefusal::Refused(Refused {
        name: Refusal::NotJson,
        path: Text::of(alloc, "")?,
    }))
}

/// Why a value is refused by its form, by how much it has, or by a moment; none where it isn't.
fn misfit_in(alloc: Global, value: &Value) -> Result<Option<Refused>, NoMemory>
    ensures { IfOk result (spec.JudgesForm (view value.now)) }
{
    let form = script_form();
    if let Some(path) = first_misfit(alloc, Pass::Shapes, &form, value)? {
        return Ok(Some(Refused {
            name: Refusal::Shape,
            path,
        }));
    }
    if let Some(path) = too_many(alloc, value)? {
        return Ok(Some(Refused {
            name: Refusal::TooMany,
            path,
        }));
    }
    match first_misfit(alloc, Pass::Moments, &form, value)? {
        Some(path) => Ok(Some(Refused {
            name: Refusal::BadMoment,
            path,
        })),
        None => Ok(None),
    }
}

/// A script, unless its actors wait for one another for ever.
fn without_deadlock(alloc: Global, script: Script) -> Result<Script, ScriptRefusal>
    ensures { MatchResult result (λ same. (same ≡ script) × HasNoDeadlock script.actors)
        (spec.RefusesDeadlock script) }
{
    match deadlock(alloc, script.actors.as_slice())? {
        Some(waiting) => Err(deadlocked(alloc, waiting)?),
        None => Ok(script),
    }
}

/// The refusal of actors of which this one waits for ever.
fn deadlocked(alloc: Global, waiting: Waiting) -> Result<ScriptRefusal, NoMemory>
    ensures { IfOk result (λ refusal. refusal ≡ ScriptRefusal.Refused (spec.deadlocked waiting)) }
{
    let spot = Spot::OfStep {
        actor: waiting.actor,
        step: waiting.step,
    };
    Ok(ScriptRefusal::Refused(Refused {
        name: Refusal::Deadlock,
        path: spot.path_text(alloc)?,
    }))
}
