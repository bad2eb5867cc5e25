//! The script that a JSON value of its form is.

ghost use Rattle.std.specs.Prelude.{◌≡◌, ◌<◌, IfOk, length, map, MatchResult};
ghost use Rattle.jar_values.specs.declared.text.TheConstants.{TEXT_END};
ghost use Rattle.serde_json.specs.View.{view};
ghost use Rattle.script_text.specs.Readings as reading;
ghost use Rattle.script_text.specs.Placed as placed;
ghost use Rattle.script_text.specs.Walk as walk;

use crate::actor::{Actor, Actors};
use crate::ask::site_url;
use crate::members::{list_at, moment_at, number_if, text_at};
use crate::refused::{Refusal, Refused, ScriptRefusal};
use crate::script::{MOST_LIMIT, Script};
use crate::spot::Spot;
use crate::step::{Step, Steps};
use crate::walk::{place_at, place_if};
use crate::what::what_of;
use jar_values::{NoMemory, Text};
use public_suffix::{SuffixRefusal, Suffixes};
use serde_json::Value;
use site_match::Place;
use std::alloc::Global;

/// The script that a value says: first its suffix list is read, then each URL, in the order of the
/// walk.
///
/// Refuses a suffix list that is refused, then the first URL that is no place, then want of memory.
/// This jar's own rule: docs/DEFINITIONS.md.
pub fn script_of(alloc: Global, value: &Value) -> Result<Script, ScriptRefusal>
    ensures { placed.ReadsDraft (reading.draft_of (view value.now)) result }
{
    let suffixes = suffixes_of(alloc, text_at(value, "suffixes"))?;
    match actors_of(alloc, &suffixes, list_at(value, "actors")) {
        Ok(actors) => Ok(Script {
            suffixes,
            start: moment_at(value, "start"),
            limit: number_if(value, "limit").unwrap_or(MOST_LIMIT),
            actors,
        }),
        Err(refusal) => Err(refusal),
    }
}

/// The suffix list of a text.
fn suffixes_of(alloc: Global, text: &str) -> Result<Suffixes, ScriptRefusal>
    requires { length text.now < TEXT_END }
    ensures { MatchResult result (placed.IsRules text.now) (placed.RefusesRules text.now) }
{
    match Suffixes::read(alloc, text) {
        Ok(suffixes) => Ok(suffixes),
        Err(SuffixRefusal::NoMemory) => Err(ScriptRefusal::NoMemory),
        Err(_) => Err(bad_suffixes(alloc)?),
    }
}

/// The refusal of a suffix list.
fn bad_suffixes(alloc: Global) -> Result<ScriptRefusal, NoMemory>
    ensures { IfOk result (λ refusal. refusal ≡ ScriptRefusal.Refused placed.bad_suffixes) }
{
    Ok(ScriptRefusal::Refused(Refused {
        name: Refusal::BadSuffixes,
        path: Text::of(alloc, "/suffixes")?,
    }))
}

/// The actors of a list.
fn actors_of(alloc: Global, suffixes: &Suffixes, values: &[Value]) -> Result<Actors, ScriptRefusal>
    ensures { let actors = map reading.actor_of (map view values.now) in
        MatchResult result (placed.ActorsFrom suffixes.now actors)
        (walk.RefusesUrls suffixes.now (walk.script_urls actors)) }
{
    let mut actors = Actors::new(alloc);
    for value in values {
        match actor_of(alloc, suffixes, actors.len(), value) {
            Ok(actor) => actors.push(actor)?,
            Err(refusal) => return Err(refusal),
        }
    }
    Ok(actors)
}

/// The actor of this index.
fn actor_of(
    alloc: Global,
    suffixes: &Suffixes,
    index: usize,
    value: &Value,
) -> Result<Actor, ScriptRefusal>
    ensures { let actor = reading.actor_of (view value.now) in
        MatchResult result (placed.IsActorOf suffixes.now actor)
        (walk.RefusesUrls suffixes.now (walk.actor_urls index actor)) }
{
    match view_of(alloc, suffixes, Spot::OfActor { actor: index }, value) {
        Ok(sees) => match steps_of(alloc, suffixes, index, list_at(value, "steps")) {
            Ok(steps) => Ok(Actor { view: sees, steps }),
            Err(refusal) => Err(refusal),
        },
        Err(refusal) => Err(refusal),
    }
}

/// The view of a renderer; a fetch has none.
fn view_of(
    alloc: Global,
    suffixes: &Suffixes,
    spot: Spot,
    value: &Value,
) -> Result<Option<(Place, Option<Place>)>, ScriptRefusal>
    ensures { let sees = reading.sees_of (view value.now) in
        MatchResult result (placed.IsViewIf suffixes.now sees)
        (walk.RefusesUrls suffixes.now (walk.view_urls_if spot sees)) }
{
    if text_at(value, "kind") == "renderer" {
        match renderer_view(alloc, suffixes, spot, value) {
            Ok(sees) => Ok(Some(sees)),
            Err(refusal) => Err(refusal),
        }
    } else {
        Ok(None)
    }
}

/// The view of a renderer: its document is read, then its site.
fn renderer_view(
    alloc: Global,
    suffixes: &Suffixes,
    spot: Spot,
    value: &Value,
) -> Result<(Place, Option<Place>), ScriptRefusal>
    ensures { let sees = reading.view_of (view value.now) in
        MatchResult result (placed.IsViewOf suffixes.now sees)
        (walk.RefusesUrls suffixes.now (walk.view_urls spot sees)) }
{
    match place_at(
        alloc,
        suffixes,
        spot,
        "document",
        text_at(value, "document"),
    ) {
        Ok(document) => match place_if(alloc, suffixes, spot, "site", site_url(value)) {
            Ok(site) => Ok((document, site)),
            Err(refusal) => Err(refusal),
        },
        Err(refusal) => Err(refusal),
    }
}

/// The steps of the actor of this index.
fn steps_of(
    alloc: Global,
    suffixes: &Suffixes,
    actor: usize,
    values: &[Value],
) -> Result<Steps, ScriptRefusal>
    ensures { let steps = map reading.step_of (map view values.now) in
        MatchResult result (placed.StepsFrom suffixes.now steps)
        (walk.RefusesUrls suffixes.now (walk.urls_from (walk.step_urls actor) 0 steps)) }
{
    let mut steps = Steps::new(alloc);
    for value in values {
        let spot = Spot::OfStep {
            actor,
            step: steps.len(),
        };
        match step_of(alloc, suffixes, spot, value) {
            Ok(step) => steps.push(step)?,
            Err(refusal) => return Err(refusal),
        }
    }
    Ok(steps)
}

/// A step.
fn step_of(
    alloc: Global,
    suffixes: &Suffixes,
    spot: Spot,
    value: &Value,
) -> Result<Step, ScriptRefusal>
    ensures { let step = reading.step_of (view value.now) in
        MatchResult result (placed.IsStepOf suffixes.now step)
        (walk.RefusesUrls suffixes.now (walk.what_urls spot step.what)) }
{
    match what_of(alloc, suffixes, spot, value) {
        Ok(what) => Ok(Step {
            now: moment_at(value, "now"),
            what,
        }),
        Err(refusal) => Err(refusal),
    }
}
