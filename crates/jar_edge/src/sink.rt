//! What bytes are written to.

ghost use Rattle.std.specs.Prelude.{MatchResult, length};
ghost use Rattle.std.specs.Io.{WritesAtMost};
ghost use Rattle.jar_edge.specs.Faults.{Rose, CountsTaken};
ghost use Rattle.jar_edge.specs.Told.{SinkTold, Takes};

use crate::source::Failed;

/// What bytes are written to.
///
/// This jar's own rule: docs/DEFINITIONS.md.
pub trait Sink {
    /// What it tells: all bytes that its writes took, how many were faults, up to the last value of
    /// a u64, and the bytes that it holds, where the sink knows them.
    ghost told: { Self → SinkTold };

    /// Writes some bytes of the front of a piece, and says how many.
    ///
    /// A write that takes nothing of a piece that isn't empty is a fault too. A write that failed
    /// took nothing.
    fn write(&mut self, piece: &[u8]) -> Result<usize, Failed>
        ensures bound { WritesAtMost result piece.now }
        ensures bytes { Takes (told self.old) (told self.new) result piece.now }
        ensures count { MatchResult result
            (λ n. CountsTaken (told self.old).faults (told self.new).faults n (length piece.now))
            (λ _. Rose (told self.old).faults (told self.new).faults) };
}
