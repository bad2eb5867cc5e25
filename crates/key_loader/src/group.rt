//! The hosts of a key.

use jar_values::{Text, Texts};

/// A key, and the stored hosts that it has.
///
/// This jar's own rule: docs/DEFINITIONS.md.
#[derive(Drop)]
pub struct Group {
    pub key: Text,
    pub hosts: Texts,
}
