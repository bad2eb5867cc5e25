//! The actors of a script.

use crate::step::Steps;
use jar_values::Listed;
use site_match::Place;

/// The most actors of a script.
///
/// This jar's own rule: docs/DEFINITIONS.md.
pub const MOST_ACTORS: usize = 64;

/// An actor: what it does, step by step.
///
/// A renderer has a view: the place of its document, and its site for cookies where it has one. A
/// fetch has none.
#[derive(Drop)]
pub struct Actor {
    pub view: Option<(Place, Option<Place>)>,
    pub steps: Steps,
}

/// Actors in their order, seen as their list.
pub type Actors = Listed<Actor>;
