//! Which stored keys are to be loaded, and which first.
#![tactic(auto)]

mod group;
mod hosts;
mod places;
mod plan;

pub use group::Group;
pub use plan::Plan;

#[cfg(test)]
mod tests;
