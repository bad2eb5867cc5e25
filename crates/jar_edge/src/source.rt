//! What bytes are read from.

ghost use Rattle.std.specs.Io.{ReadsAtMost};
ghost use Rattle.jar_edge.specs.Faults.{CountsRefusal};
ghost use Rattle.jar_edge.specs.Told.{SourceTold, Gives};

use std::error::Error;
use std::fmt;

/// A read or a write failed, and its source or sink counted the fault.
///
/// This jar's own rule: docs/DEFINITIONS.md.
#[derive(Clone, Copy, Debug, PartialEq, Eq)]
pub struct Failed;

impl fmt::Display for Failed {
    fn fmt<W: fmt::Write>(&self, f: &mut fmt::Formatter<W>) -> fmt::Result {
        write!(f, "a read or a write failed")
    }
}

impl Error for Failed {}

/// What bytes are read from.
///
/// This jar's own rule: docs/DEFINITIONS.md.
pub trait Source {
    /// What it tells: all bytes that its reads gave, whether the last one that succeeded found the
    /// end, how many failed, up to the last value of a u64, and the bytes that are left, where the
    /// source knows them.
    ghost told: { Self → SourceTold };

    /// Reads some of the bytes that are left into the front of a buffer, and says how many.
    ///
    /// `Ok(0)` for a buffer that isn't empty is the end of the input. A read that failed gave
    /// nothing.
    fn read(&mut self, buf: &mut [u8]) -> Result<usize, Failed>
        ensures bound { ReadsAtMost result buf.new }
        ensures bytes { Gives (told self.old) (told self.new) result buf.new }
        ensures count { CountsRefusal (told self.old).faults (told self.new).faults result };
}
