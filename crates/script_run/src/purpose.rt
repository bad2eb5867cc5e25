//! What an actor calls the jar for.

use jar_types::{AskCause, Moment, Op};

/// What an actor calls the jar for, by which its item and what it keeps are settled.
#[derive(Clone, Copy, Debug, PartialEq, Eq)]
pub enum Purpose {
    /// A step that is no read.
    Call,
    /// The Bind of a renderer, before its steps.
    Bind,
    /// A read, and why it asks.
    Read(AskCause),
}

/// An op that an actor wants to have carried out at a moment, and what for.
#[derive(Drop)]
pub struct Wanted {
    pub op: Op,
    pub now: Moment,
    pub why: Purpose,
}
