//! Faces with their places, and the places of those that go.

ghost use Rattle.std.specs.Prelude.{◌≡◌, IfOk, map};
ghost use Rattle.eviction.specs.Candidates.{AllStand, face_of, place_of};

use crate::face::Face;
use jar_types::NoMemory;
use std::alloc::Global;

/// A face, and its place in the list that it is of.
///
/// This jar's own rule: docs/DEFINITIONS.md.
#[derive(Clone, Copy)]
pub struct Candidate {
    pub place: usize,
    pub face: Face,
}

/// The faces with their places, in order.
///
/// This jar's own rule: docs/DEFINITIONS.md.
pub fn candidates(alloc: Global, faces: &[Face]) -> Result<Vec<Candidate>, NoMemory>
    ensures faces { IfOk result (λ all. map face_of all.items ≡ faces.now) }
    ensures places { IfOk result (λ all. AllStand faces.now all.items) }
{
    let mut all = Vec::new(alloc);
    for (place, face) in faces.iter().enumerate() {
        all.push(Candidate { place, face: *face })?;
    }
    Ok(all)
}

/// The places of candidates.
///
/// This jar's own rule: docs/DEFINITIONS.md.
pub fn places(alloc: Global, candidates: &[Candidate]) -> Result<Vec<usize>, NoMemory>
    ensures { IfOk result (λ places. places.items ≡ map place_of candidates.now) }
{
    let mut places = Vec::new(alloc);
    for candidate in candidates {
        places.push(candidate.place)?;
    }
    Ok(places)
}
