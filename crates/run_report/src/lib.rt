//! Reports of runs, and their text.
#![tactic(auto)]

mod change;
mod cookie;
mod entry;
mod item;
mod member;
mod op;
mod own;
mod refusal_name;
mod reply;
mod report;
mod request;

pub use item::{Item, ItemLists, Items};
pub use refusal_name::RefusalName;
pub use report::{Report, print};

#[cfg(test)]
mod tests;
