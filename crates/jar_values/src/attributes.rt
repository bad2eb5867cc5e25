//! What SameSite and Priority of a cookie can be.

/// The SameSite attribute of a cookie.
///
/// The 6265bis draft, section 5.6.7; `NoLimit` is its value `None`, `Unspecified` its `Default`.
#[derive(Clone, Copy, Debug, PartialEq, Eq)]
pub enum SameSite {
    Unspecified,
    NoLimit,
    Lax,
    Strict,
}

/// The Priority attribute of a cookie, which eviction goes by.
///
/// This jar's own rule: docs/DEFINITIONS.md.
#[derive(Clone, Copy, Debug, PartialEq, Eq)]
pub enum Priority {
    Low,
    Medium,
    High,
}
