//! The plan of a jar.

ghost use Rattle.std.specs.Prelude.{◌≡◌, IfOk, filter, map};
ghost use Rattle.eviction.specs.Candidates.{AllStand, candidate_looks, face_of};
ghost use Rattle.eviction.specs.Faces.{face_looks, TiesDiffer, ArePlaces};
ghost use Rattle.eviction.specs.Orders as orders;
ghost use Rattle.jar_types.specs.Plans as plans;

use crate::candidate::{Candidate, candidates, places};
use crate::face::{Face, access_cmp};
use jar_types::{LEFT_OF_JAR, MOST_OF_JAR, Moment, NoMemory, STALE_AFTER};
use std::alloc::Global;
use std::cmp::Ordering;

/// Who goes from a jar of these, by their places and in order: none of up to 3,300, else those that
/// weren't accessed for more than 30 days, until 3,000 are left, first the ones that aren't Secure,
/// the least accessed first.
///
/// This jar's own rule: docs/DEFINITIONS.md.
pub fn global_plan(alloc: Global, faces: &[Face], now: Moment) -> Result<Vec<usize>, NoMemory>
    requires { TiesDiffer faces.now }
    ensures { IfOk result (λ plan. ArePlaces faces.now plan.items
        (plans.jar_plan face_looks now faces.now)) }
{
    if faces.len() <= MOST_OF_JAR {
        return Ok(Vec::new(alloc));
    }
    let mut going = jar_order(alloc, faces, now)?;
    going.truncate(faces.len() - LEFT_OF_JAR);
    places(alloc, &going)
}

/// The stale ones, in the order in which they go.
fn jar_order(alloc: Global, faces: &[Face], now: Moment) -> Result<Vec<Candidate>, NoMemory>
    requires { TiesDiffer faces.now }
    ensures stand { IfOk result (λ going. AllStand faces.now going.items) }
    ensures order { IfOk result (λ going. map face_of going.items
        ≡ orders.jar_order face_looks now faces.now) }
{
    let mut going = candidates(alloc, faces)?;
    keep_stale(&mut going, now);
    going.sort_unstable_by(jar_cmp);
    Ok(going)
}

/// Takes out the candidates that aren't stale.
fn keep_stale(candidates: &mut Vec<Candidate>, now: Moment)
    ensures { candidates.new.items
        ≡ filter (plans.is_stale candidate_looks now) candidates.old.items }
{
    candidates.retain(|candidate| is_stale(&candidate.face, now));
}

/// Whether a face wasn't accessed for more than 30 days.
fn is_stale(face: &Face, now: Moment) -> bool
    ensures { result ≡ plans.is_stale face_looks now face.now }
{
    face.access.ms() + STALE_AFTER < now.ms()
}

/// The order of two candidates in a jar's plan.
fn jar_cmp(c: &Candidate, d: &Candidate) -> Ordering
    ensures { result
        ≡ orders.plan_cmp candidate_looks (plans.jar_rounds candidate_looks) c.now d.now }
{
    let by_round = c.face.secure.cmp(&d.face.secure);
    by_round.then(access_cmp(&c.face, &d.face))
}
