//! The changed rows that wait for a commit: one change for each id, the newest.
#![tactic(auto)]

mod law;
mod merge;
mod order;
mod pending;

pub use law::{newest_are_touched, newest_rise};
pub use merge::overlay;
pub use pending::{MOST_PENDING, Pending};

#[cfg(test)]
mod tests;
