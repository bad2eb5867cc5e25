//! What lies under the jar's lock: core, journal and baton, to which each call and each thing that the jar does itself
//! adds one entry.
#![tactic(auto)]

mod batch;
mod call;
mod enter;
mod history_law;
mod locked;
mod moving;
mod own;
mod ready;
mod receipt;
mod want;

pub use history_law::{histories_begin, histories_go_on, journals_have_room, served_are_owned};
pub use locked::Locked;
pub use receipt::{CallRefusal, Receipt};
