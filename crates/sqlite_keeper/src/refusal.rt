//! The refusals of a keeper that is made, and those of statements.

ghost use Rattle.std.specs.Prelude.{◌≡◌, ◌↔◌, false};
ghost use Rattle.sqlite_keeper.specs.Changing as spec;

use sqlite::{Alter, Connection, Error, ErrorCode};
use std::error::Error as StdError;
use std::fmt;

/// Why a keeper wasn't made, in the order in which the refusals apply.
///
/// This jar's own rule: docs/DEFINITIONS.md.
#[derive(Clone, Copy, Debug, PartialEq, Eq)]
pub enum OverRefusal {
    /// The creation text was refused for another cause than memory.
    Refused,
    /// Memory was wanting.
    NoMemory,
}

impl fmt::Display for OverRefusal {
    fn fmt<W: fmt::Write>(&self, f: &mut fmt::Formatter<W>) -> fmt::Result {
        match self {
            OverRefusal::Refused => write!(f, "the table of cookies was refused"),
            OverRefusal::NoMemory => write!(f, "out of memory"),
        }
    }
}

impl StdError for OverRefusal {}

/// A connection that no keeper was made over, and why.
///
/// This jar's own rule: docs/DEFINITIONS.md.
#[derive(Drop)]
pub struct OverFail<S: Alter> {
    pub conn: Connection<S>,
    pub refusal: OverRefusal,
}

/// Whether a statement was refused for want of memory.
pub fn is_memory(error: &Error) -> bool
    ensures { result ≡ spec.is_memory error.now }
{
    matches!(error, Error::SqliteFailure(ErrorCode::OutOfMemory))
}

/// Why no keeper was made, where the creation text was refused.
pub fn refusal_of(error: Error) -> OverRefusal
    ensures { (result ≡ OverRefusal.Refused) ↔ (spec.is_memory error ≡ false) }
{
    if is_memory(&error) {
        OverRefusal::NoMemory
    } else {
        OverRefusal::Refused
    }
}
