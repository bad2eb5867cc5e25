//! What a seat knows of the words and the history. No value of these types is made.

use crate::listing::Listing;
use std::collections::LinkedList;

/// One look at the version of a cell.
pub struct Look {
    /// The cell, from 1 to `CELLS`.
    pub cell: u32,
    /// The number that was read.
    pub number: u64,
    /// How many entries the pass had seen then.
    pub place: u64,
}

/// What a seat remembers, and what a copy of it takes along.
pub struct Memory {
    /// The entries that it has seen, which begin the history.
    pub seen: LinkedList<Listing>,
    /// The last look of its pass, if there was one.
    pub last: Option<Look>,
    /// How many entries its last front step found.
    pub found: u64,
}

/// The leave to commit entries in the name of a pass, as it lies with the baton or a copy.
pub struct Permit {
    /// The number of the pass.
    pub number: u32,
    /// How many entries of that owner came since it was lent.
    pub uses: u64,
}

/// What a seat is.
pub enum Kind {
    /// The one seat that commits entries.
    Baton,
    /// The seat of one caller.
    Pass,
    /// A seat on its way from one of them to another.
    Copy,
    /// A seat that was taken in.
    Spent,
}

/// What one seat knows. This jar's own rule: docs/DEFINITIONS.md.
pub struct View {
    /// What the seat is.
    pub kind: Kind,
    /// What it remembers itself.
    pub own: Memory,
    /// What it took in with copies, the newest first.
    pub notes: LinkedList<Memory>,
    /// Of a baton or a copy: the permit that lies with it.
    pub permit: Option<Permit>,
    /// Of a baton: the cells that were bumped for an entry to come.
    pub pending: LinkedList<u32>,
    /// Of a baton: the number of the next pass.
    pub next: u32,
    /// Of a pass: its number, by which it owns entries.
    pub number: u32,
    /// Of a pass: its entries, but for those of a permit that is away.
    pub calls: u64,
    /// Of a pass: whether its permit is away.
    pub away: bool,
    /// Of a pass: its looks, the newest last.
    pub looks: LinkedList<Look>,
    /// Of a pass: how many front steps it made.
    pub fronts: u64,
}
