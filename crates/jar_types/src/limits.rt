//! How many cookies a jar keeps, and for how long an unused one is fresh.

/// The most cookies of a key before some of them are evicted.
///
/// This jar's own rule: docs/DEFINITIONS.md.
pub const MOST_OF_KEY: usize = 180;

/// How many cookies of a key an eviction leaves.
///
/// This jar's own rule: docs/DEFINITIONS.md.
pub const LEFT_OF_KEY: usize = 150;

/// How many cookies of priority Low an eviction of their key spares.
///
/// This jar's own rule: docs/DEFINITIONS.md.
pub const LOW_QUOTA: usize = 30;

/// How many cookies of priority Medium an eviction of their key spares.
///
/// This jar's own rule: docs/DEFINITIONS.md.
pub const MEDIUM_QUOTA: usize = 50;

/// How many cookies of priority High an eviction of their key spares.
///
/// This jar's own rule: docs/DEFINITIONS.md.
pub const HIGH_QUOTA: usize = 70;

/// The most cookies of a jar before it is swept.
///
/// This jar's own rule: docs/DEFINITIONS.md.
pub const MOST_OF_JAR: usize = 3300;

/// How many cookies a sweep leaves at the least, expired ones aside.
///
/// This jar's own rule: docs/DEFINITIONS.md.
pub const LEFT_OF_JAR: usize = 3000;

/// After how many milliseconds without an access a cookie is stale.
///
/// This jar's own rule: docs/DEFINITIONS.md.
pub const STALE_AFTER: u64 = 2_592_000_000;
