//! The jar as a plain list of cookies: the core whose every step is that of the definitions.
#![tactic(auto)]

mod access;
mod answer;
mod bar;
mod batches;
mod bind;
mod by_id;
mod changed;
mod content;
mod delete;
mod eligible;
mod evict;
mod get;
mod jar;
mod key_loads;
mod listen;
mod loads;
mod moved;
mod need;
mod order;
mod own;
mod plan;
mod post;
mod purge;
mod put;
mod row;
mod row_changes;
mod set;
mod standing;
mod step;
mod stepped;
mod tally;
mod tell;
mod text;
mod texts;
mod touched;
mod until;
mod version;
mod wholes;

pub use answer::answers_are_ordered;
pub use jar::PlainJar;

#[cfg(test)]
mod tests;
