//! One jar, its vault and its words: of one thread, or shared by threads.
#![tactic(auto)]

mod begin;
mod finish;
mod holding_law;
mod jar_state;
mod naming;
mod opening;
mod own_jar;
mod sharing;
mod vault_state;

pub use finish::Closed;
pub use holding_law::keepers_hold_the_acked;
pub use naming::JarName;
pub use opening::{BeginFail, BeginRefusal, MOST_CALLERS, MOST_HOSTS, MOST_LIMIT, Opened};
pub use own_jar::OwnJar;
pub use sharing::SharedJar;

#[cfg(test)]
mod tests;
