//! What lies under the vault's lock: the keeper of stored rows, and the loads and commits between it and a locked jar.
#![tactic(auto)]

mod commits;
mod cutting;
mod host_loads;
mod loads;
mod refusal;
mod stored;
mod vault;

pub use refusal::{FlushRefusal, LoadRefusal, LoadStep};
pub use stored::Stored;
pub use vault::{MOST_OWNS, Vault};
