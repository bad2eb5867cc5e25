//! The law that loading stored cookies a key at a time changes no answer of the jar.
#![tactic(auto)]

mod law;

pub use law::loading_changes_no_answer;
