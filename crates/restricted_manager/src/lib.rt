//! What a renderer does with cookies for its document.
#![tactic(auto)]

mod document;
mod keeping;
mod manager;
mod read;
mod request;
#[cfg(test)]
mod tests;
mod write;

pub use manager::Manager;
pub use read::{ReadTurn, ReadTurnRefusal};
pub use write::WriteRefusal;
