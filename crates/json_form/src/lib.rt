//! Described forms of JSON values, and the walk that finds where a value isn't of its form.
#![tactic(auto)]

mod alternatives;
mod form;
mod leaves;
mod lists;
mod members;
mod objects;
mod paths;
mod setting;
mod walk;

pub use form::{Form, Member, Outline, Presence, Word};
pub use setting::Pass;
pub use walk::first_misfit;

#[cfg(test)]
mod tests;
