//! Why a reader of cookies asks the jar, and doesn't use again what it kept.

/// Why a reader of cookies asks the jar. The first that holds is named.
///
/// This jar's own rule: docs/DEFINITIONS.md.
#[derive(Clone, Copy, Debug, PartialEq, Eq)]
pub enum AskCause {
    /// It asks for another URL than its document's.
    Other,
    /// Its document's key has no cell.
    NoCell,
    /// It keeps nothing.
    Cold,
    /// What it keeps was right until this moment only, in milliseconds since 1970.
    Late { until: u64 },
    /// The version of its key's cell isn't the one that it keeps.
    Moved { kept: u64, found: u64 },
}
