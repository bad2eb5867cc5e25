//! Faces of cookies.

ghost use Rattle.std.specs.Prelude.{◌≡◌};
ghost use Rattle.eviction.specs.Faces.{face_looks};
ghost use Rattle.jar_types.specs.Plans as plans;

use jar_types::{Moment, Priority};
use std::cmp::Ordering;

/// What a plan sees of a cookie: the moments of its last access and of its creation, a number that
/// tells it apart from the others, its priority, and whether it is Secure.
///
/// This jar's own rule: docs/DEFINITIONS.md.
#[derive(Clone, Copy, Debug, PartialEq, Eq)]
pub struct Face {
    pub access: Moment,
    pub creation: Moment,
    pub tie: u64,
    pub priority: Priority,
    pub secure: bool,
}

/// The order of two faces: by access, then by creation, then by tie.
///
/// This jar's own rule: docs/DEFINITIONS.md.
pub fn access_cmp(f: &Face, g: &Face) -> Ordering
    ensures { result ≡ plans.access_cmp face_looks f.now g.now }
{
    f.access
        .cmp(&g.access)
        .then(f.creation.cmp(&g.creation).then(f.tie.cmp(&g.tie)))
}
