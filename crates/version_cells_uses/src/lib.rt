//! Callers of the version words: what their clauses suffice for, on one thread and on several.
#![tactic(auto)]

mod call;
mod desk;
mod lent;
mod name;
#[cfg(test)]
mod tests;
mod threads;

pub use call::one_call;
pub use desk::{Desk, Full, LIMIT};
pub use lent::three_entries;
pub use name::Name;
pub use threads::{Called, call_and_look, each_calls};
