//! What stored rows are kept in, and a keeper of them in memory.
#![tactic(auto)]

mod change;
mod host;
mod keeper;
mod memory_keeper;
mod order;
mod refusal;

pub use keeper::Keeper;
pub use memory_keeper::MemKeeper;
pub use refusal::KeeperRefusal;

#[cfg(test)]
mod tests;
