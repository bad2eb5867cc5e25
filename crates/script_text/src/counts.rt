//! How many actors and steps a script has.

ghost use Rattle.std.specs.Prelude.{◌≡◌, ◌≤◌, codes, IfOk, map, MatchOption};
ghost use Rattle.serde_json.specs.View.{view};
ghost use Rattle.script_text.specs.Counts as spec;
ghost use Rattle.script_text.specs.Readings as reading;
ghost use Rattle.script_text.specs.Walk.{member_path};

use crate::actor::MOST_ACTORS;
use crate::members::list_at;
use crate::spot::Spot;
use crate::step::MOST_STEPS;
use jar_values::{NoMemory, Text};
use serde_json::Value;
use std::alloc::Global;

/// The path of the list of the actors where there are too many, or else of the steps in which the
/// first that is too many stands; none where there are few enough.
///
/// This jar's own rule: docs/DEFINITIONS.md.
pub fn too_many(alloc: Global, value: &Value) -> Result<Option<Text>, NoMemory>
    ensures { IfOk result (spec.FindsTooMany (reading.draft_of (view value.now)).actors) }
{
    let actors = list_at(value, "actors");
    if actors.len() > MOST_ACTORS {
        return Ok(Some(Text::of(alloc, "/actors")?));
    }
    match over_at(actors) {
        Some(actor) => Ok(Some(steps_path(alloc, actor)?)),
        None => Ok(None),
    }
}

/// The path of the steps of an actor.
fn steps_path(alloc: Global, actor: usize) -> Result<Text, NoMemory>
    ensures { IfOk result (λ path. path ≡ member_path (Spot.OfActor actor) (codes "steps")) }
{
    Spot::OfActor { actor }.member_path(alloc, "steps")
}

/// The index of the actor whose steps are too many with those before; none where there is none.
fn over_at(actors: &[Value]) -> Option<usize>
    ensures { let drafts = map reading.actor_of (map view actors.now) in
        MatchOption result (spec.step_count drafts ≤ MOST_STEPS) (spec.IsOverAt drafts) }
{
    let mut left = MOST_STEPS;
    for (index, actor) in actors.iter().enumerate() {
        let steps = list_at(actor, "steps").len();
        if steps > left {
            return Some(index);
        }
        left -= steps;
    }
    None
}
