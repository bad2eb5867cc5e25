//! A kept answer text, and the one look that decides whether it is reused.
#![tactic(auto)]

mod kept;
mod reuse;
#[cfg(test)]
mod tests;

pub use kept::Kept;
pub use reuse::Reuse;
