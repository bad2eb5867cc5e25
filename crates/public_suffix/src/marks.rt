//! The marks that rules of one text have.

/// Which marks the rules of one text have.
#[derive(Clone, Copy, Debug, PartialEq, Eq)]
pub struct Marks {
    /// Whether one has no mark.
    pub plain: bool,
    /// Whether one is a wildcard.
    pub wildcard: bool,
    /// Whether one is an exception.
    pub exception: bool,
}
