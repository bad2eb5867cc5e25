//! The statuses of the process.
//!
//! This jar's own rule: docs/DEFINITIONS.md.

/// The report was written.
pub const DONE: u8 = 0;

/// The words aren't those that the program takes.
pub const OTHER_WORDS: u8 = 2;

/// The input is refused.
pub const REFUSED: u8 = 3;

/// A read failed.
pub const READ_FAULT: u8 = 4;

/// A write failed.
pub const WRITE_FAULT: u8 = 5;

/// The keeper of rows failed.
pub const STORE_FAULT: u8 = 6;

/// Memory was wanting.
pub const NO_MEMORY: u8 = 7;
