//! Scripts of fetches and renderers, from the bytes of a script to those of its report.
#![tactic(auto)]

mod answer;
mod ask;
mod law;
mod players;
mod purpose;
mod refusal_line;
mod rounds;
mod run_law;
mod services;
mod status;
mod timed;
mod tool;
mod tries;
mod words;

pub use answer::{Answer, NoAnswer, answer_of};
pub use law::{
    items_fit_the_turns, items_name_the_calls, listeners_are_told_first, listeners_are_told_on,
    runs_are_one, runs_over_rows, serial_journals_are_legal,
};
pub use rounds::{Ran, RunFail, RunRefusal, serial};
pub use run_law::{stored_runs_are_eager, stored_runs_are_honest, stored_runs_are_kept};
pub use run_report::{Item, ItemLists, Items, RefusalName, Report};
pub use tool::{MOST_INPUT, Outcome, serial_tool};
pub use words::store_path;

#[cfg(test)]
mod tests;
