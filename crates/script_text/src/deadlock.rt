//! Deadlock: actors that wait for one another for ever.

ghost use Rattle.std.specs.Prelude.{◌≡◌, ◌+◌, ◌<◌, ◌≤◌, ◌^◌, IfOk, MatchOption, length, option_copied, slice_get, slice_index, if◌then◌else◌};
ghost use Rattle.script_text.specs.Deadlocks as spec;

use crate::actor::Actor;
use crate::step::{Step, What};
use jar_values::NoMemory;
use std::alloc::Global;

/// Who waits for ever: the index of the actor, and that of its step, both counted from 0.
#[derive(Clone, Copy, Debug, PartialEq, Eq)]
pub struct Waiting {
    pub actor: usize,
    pub step: usize,
}

/// The first of the actors that don't end, and the step at which it stands; none where all end.
///
/// The actors run in order, again and again, each until it ends or stands at a hear whose actor has
/// posted too few times, until a turn through all of them moves none. This jar's own rule:
/// docs/DEFINITIONS.md.
pub fn deadlock(alloc: Global, actors: &[Actor]) -> Result<Option<Waiting>, NoMemory>
    ensures { IfOk result (spec.FindsDeadlock actors.now) }
{
    let mut places = vec![in alloc; 0usize; actors.len()]?;
    let mut counts = vec![in alloc; 0u64; actors.len()]?;
    run_all(actors, &mut places, &mut counts);
    Ok(first_unfinished(actors, &places))
}

/// All actors run until they stand: turn by turn, until a turn moves none.
fn run_all(actors: &[Actor], places: &mut [usize], counts: &mut [u64])
    requires places { places.old ≡ spec.at_start actors.now }
    requires counts { counts.old ≡ spec.at_start actors.now }
    ensures { spec.ComeToStand actors.now places.new }
{
    loop {
        if !turn(actors, places, counts) {
            return;
        }
    }
}

/// All actors run, in order. Whether one of them moved.
fn turn(actors: &[Actor], places: &mut [usize], counts: &mut [u64]) -> bool
    requires { spec.Stand actors.now places.old counts.old }
    ensures runs { places.new ≡ spec.turn actors.now places.old }
    ensures stand { spec.Stand actors.now places.new counts.new }
    ensures moves { spec.Moves actors.now result places.old places.new }
{
    let mut moved = false;
    for a in 0..actors.len() {
        let went = run_one(actors, a, places, counts);
        moved = went || moved;
    }
    moved
}

/// An actor runs. Whether it moved.
fn run_one(actors: &[Actor], a: usize, places: &mut [usize], counts: &mut [u64]) -> bool
    requires actor { a < length actors.now }
    requires stand { spec.Stand actors.now places.old counts.old }
    ensures runs { places.new ≡ spec.run_one actors.now a places.old }
    ensures stand { spec.Stand actors.now places.new counts.new }
    ensures moves { spec.Moves actors.now result places.old places.new }
{
    let mut moved = false;
    while let Some(step) = step_at(actors, a, places[a]) {
        if waits(counts, &step.what) {
            break;
        }
        make_step(a, &step.what, places, counts);
        moved = true;
    }
    moved
}

/// A step of an actor, each counted from 0; none past the last.
fn step_at(actors: &[Actor], a: usize, step: usize) -> Option<&Step>
    ensures value { option_copied result ≡ slice_get (spec.steps_at actors.now a) step }
    ensures few { MatchOption result (Unit {0}) (λ _. step < 2 ^ 63) }
{
    match actors.get(a) {
        Some(actor) => actor.steps.as_slice().get(step),
        None => None,
    }
}

/// Whether a step waits where actors have posted so often.
fn waits(counts: &[u64], what: &What) -> bool
    ensures { result ≡ spec.waits_for counts.now what.now }
{
    match what {
        What::Hear { actor, n } => counts.get(*actor as usize).copied().unwrap_or(0) < *n,
        _ => false,
    }
}

/// An actor makes a step.
fn make_step(a: usize, what: &What, places: &mut [usize], counts: &mut [u64])
    requires place { a < length places.old }
    requires count { a < length counts.old }
    requires few_steps { slice_index places.old a < 2 ^ 63 }
    requires few_posts { slice_index counts.old a < 2 ^ 63 }
    ensures places { places.new ≡ spec.one_on places.old a }
    ensures counts { counts.new
        ≡ (if spec.posts what.now then spec.one_on counts.old a else counts.old) }
{
    places[a] += 1;
    if let What::Post = what {
        counts[a] += 1;
    }
}

/// The first actor that hasn't ended; none where all have.
fn first_unfinished(actors: &[Actor], places: &[usize]) -> Option<Waiting>
    requires { length places.now ≡ length actors.now }
    ensures { MatchOption result (spec.AllHaveEnded actors.now places.now)
        (spec.IsFirstLeft actors.now places.now) }
{
    for (actor, step) in places.iter().enumerate() {
        if *step < actors[actor].steps.len() {
            return Some(Waiting { actor, step: *step });
        }
    }
    None
}
