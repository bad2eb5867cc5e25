//! The bytes that passed a stream so far, which clauses alone read.

ghost use Rattle.std.specs.Prelude.{◌≡◌, ℕ, Bool, false, List, [], ◌++◌, length, take};
ghost use Rattle.std.specs.Borrow.{ftrue};
ghost use Rattle.jar_edge.specs.Told.{finds_end};

use std::marker::Model;

/// The bytes that passed a stream so far, and whether the last call that succeeded passed none
/// though there was room.
///
/// It takes no memory, and its calls do nothing at run time. This jar's own rule:
/// docs/DEFINITIONS.md.
#[derive(Drop)]
pub struct History {
    pub ghost bytes: { List ℕ },
    pub ghost ended: { Bool },
}

impl Model for History {
    ghost also_owns = { λ _. ftrue };
}

impl History {
    /// The history of a stream that no byte has passed.
    pub fn new() -> History
        ensures { (result.bytes ≡ []) × (result.ended ≡ false) }
    {
        History {}
    }

    /// Notes that the first `_n` bytes of a buffer passed.
    pub fn note(&mut self, _buffer: &[u8], _n: usize)
        ensures { (self.new.bytes ≡ self.old.bytes ++ take _n _buffer.now)
            × (self.new.ended ≡ finds_end _n (length _buffer.now)) }
    {}
}
