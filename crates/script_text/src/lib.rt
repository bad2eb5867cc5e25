//! Scripts: what they are, and the reader of their bytes.
#![tactic(auto)]

mod actor;
mod ask;
mod counts;
mod deadlock;
mod form;
mod law;
mod members;
mod reader;
mod refused;
mod script;
mod spot;
mod step;
mod walk;
mod what;
mod word;

pub use actor::{Actor, Actors, MOST_ACTORS};
pub use deadlock::Waiting;
pub use law::waiting_actors_have_ended;
pub use refused::{Refusal, Refused, ScriptRefusal};
pub use script::{MOST_LIMIT, Script};
pub use step::{MOST_STEPS, Step, Steps, What};

#[cfg(test)]
mod tests;
