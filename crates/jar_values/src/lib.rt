//! The values that the jar's data is made of: moments, texts, lists, attributes, and what bytes and names are apart.
#![tactic(auto)]

mod attributes;
mod bytes;
mod hosts;
mod listed;
mod memory;
mod moment;
mod names;
mod text;

pub use attributes::{Priority, SameSite};
pub use bytes::{is_blank, is_control};
pub use hosts::undotted;
pub use listed::{Copied, Listed};
pub use memory::NoMemory;
pub use moment::{MAX_MOMENT, Moment};
pub use names::{MAX_PAIR_BYTES, has_host_prefix, has_secure_prefix, is_reserved};
pub use text::{TEXT_END, Text, Texts};

#[cfg(test)]
mod tests;
