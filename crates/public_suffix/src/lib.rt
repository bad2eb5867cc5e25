//! Public suffix lists, and the registrable domains of hosts by them.
#![tactic(auto)]

mod address;
mod ending;
mod found;
mod labels;
mod lines;
mod marks;
mod reading;
mod refusal;
mod rule;
mod steps;
mod suffixes;
mod table;

pub use address::is_ip_host;
pub use refusal::{MAX_RULES, SuffixRefusal};
pub use suffixes::Suffixes;

#[cfg(test)]
mod tests;
