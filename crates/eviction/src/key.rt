//! The plan of a key.

ghost use Rattle.std.specs.Prelude.{◌≡◌, IfOk, map};
ghost use Rattle.eviction.specs.Candidates.{AllStand, candidate_looks, face_of};
ghost use Rattle.eviction.specs.Faces.{face_looks, TiesDiffer, ArePlaces};
ghost use Rattle.eviction.specs.Orders as orders;
ghost use Rattle.jar_types.specs.Plans as plans;

use crate::candidate::{Candidate, candidates, places};
use crate::face::{Face, access_cmp};
use crate::spared::unspared;
use jar_types::{LEFT_OF_KEY, MOST_OF_KEY, NoMemory, Priority};
use std::alloc::Global;
use std::cmp::Ordering;

/// Who goes from a key of these, by their places and in order: none of up to 180, else all but 150,
/// round by round and in each the least accessed first, who isn't spared.
///
/// This jar's own rule: docs/DEFINITIONS.md.
pub fn key_plan(alloc: Global, faces: &[Face]) -> Result<Vec<usize>, NoMemory>
    requires { TiesDiffer faces.now }
    ensures { IfOk result (λ plan. ArePlaces faces.now plan.items
        (plans.key_plan face_looks faces.now)) }
{
    if faces.len() <= MOST_OF_KEY {
        return Ok(Vec::new(alloc));
    }
    let mut going = key_order(alloc, faces)?;
    going.truncate(faces.len() - LEFT_OF_KEY);
    places(alloc, &going)
}

/// Those who aren't spared, in the order in which they go.
fn key_order(alloc: Global, faces: &[Face]) -> Result<Vec<Candidate>, NoMemory>
    requires { TiesDiffer faces.now }
    ensures stand { IfOk result (λ going. AllStand faces.now going.items) }
    ensures order { IfOk result (λ going. map face_of going.items
        ≡ orders.key_order face_looks faces.now) }
{
    let mut all = candidates(alloc, faces)?;
    all.sort_unstable_by(descending);
    let mut going = unspared(alloc, &all)?;
    going.sort_unstable_by(key_cmp);
    Ok(going)
}

/// The order of two candidates by access, the most accessed first.
fn descending(c: &Candidate, d: &Candidate) -> Ordering
    ensures { result ≡ plans.access_cmp candidate_looks d.now c.now }
{
    access_cmp(&d.face, &c.face)
}

/// The order of two candidates in a key's plan.
fn key_cmp(c: &Candidate, d: &Candidate) -> Ordering
    ensures { result
        ≡ orders.plan_cmp candidate_looks (plans.key_rounds candidate_looks) c.now d.now }
{
    let by_round = key_round(&c.face).cmp(&key_round(&d.face));
    by_round.then(access_cmp(&c.face, &d.face))
}

/// The number of the first round of a key that a face is of, from 0.
fn key_round(face: &Face) -> u8
    ensures { result ≡ orders.round_of (plans.key_rounds face_looks) face.now }
{
    match (face.priority, face.secure) {
        (Priority::Low, false) => 0,
        (Priority::Low, true) => 1,
        (Priority::Medium, false) => 2,
        (Priority::High, false) => 3,
        (Priority::Medium, true) => 4,
        (Priority::High, true) => 5,
    }
}
