//! A keeper of cookie rows over SQLite.
#![tactic(auto)]

mod committed;
mod creation;
mod decoding;
mod reading;
mod refusal;
mod sqlite_keeper;
mod writing;

pub use refusal::{OverFail, OverRefusal};
pub use sqlite_keeper::SqliteKeeper;

#[cfg(test)]
mod tests;
