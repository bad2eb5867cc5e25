//! The steps of an actor.

use jar_values::{Listed, Moment, Text};
use site_match::{FetchAsk, Place};

/// The most steps of a script, those of all its actors together.
///
/// This jar's own rule: docs/DEFINITIONS.md.
pub const MOST_STEPS: usize = 20_000;

/// A step of an actor: what it does, at a moment.
#[derive(Drop)]
pub struct Step {
    pub now: Moment,
    pub what: What,
}

/// What a step does.
///
/// A fetch sets, gets, deletes, asks for all, and clears; a renderer reads and writes; both listen
/// and wait for one another.
#[derive(Drop)]
pub enum What {
    /// Sets a cookie by a Set-Cookie line.
    Set {
        ask: FetchAsk,
        line: Text,
    },
    /// Gets the cookies of a place.
    Get {
        ask: FetchAsk,
    },
    /// Deletes the cookie of an id.
    Delete {
        host: Text,
        name: Text,
        path: Text,
    },
    /// Asks for all cookies.
    All,
    /// Deletes all cookies.
    Clear,
    /// Listens to the changes of cookies: those that a fetch of this place would get, where there is
    /// one, and those of a name, where there is one. A renderer's place is its document's.
    Listen {
        ask: Option<FetchAsk>,
        name: Option<Text>,
    },
    /// Asks for the changes of one of the actor's listeners, counted from 1.
    Changes {
        listener: u64,
    },
    /// Ends one of the actor's listeners, counted from 1.
    Unlisten {
        listener: u64,
    },
    /// Posts, for others to hear.
    Post,
    /// Waits until an actor, counted from 0, has posted as often as this.
    Hear {
        actor: u32,
        n: u64,
    },
    /// Reads the cookies of a place: the document's where there is none.
    Read {
        url: Option<Place>,
    },
    /// Writes a Set-Cookie line at a place: the document's where there is none.
    Write {
        line: Text,
        url: Option<Place>,
    },
}

/// Steps in their order, seen as their list.
pub type Steps = Listed<Step>;
