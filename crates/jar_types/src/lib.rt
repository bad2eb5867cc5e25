//! The data of the jar: cookies, requests, ops, entries and journals, the trait of its cores, and what the jar of one
//! thread does.
#![tactic(auto)]

mod ask_cause;
mod bound_key;
mod change;
mod cookie;
mod entry;
mod jar_core;
mod journal;
mod law;
mod limits;
mod listener;
mod op;
mod request;
mod row;
mod tally;

pub use ask_cause::AskCause;
pub use bound_key::{BoundKey, BoundKeys, MOST_CELLS};
pub use change::{Cause, Change, Changes};
pub use cookie::{Cookie, CookieId, Cookies};
pub use entry::{Entry, Event, Own};
pub use jar_core::{Awaited, CoreRefusal, JarCore, LoadWish, Prepared};
pub use jar_values::{
    Copied, Listed, MAX_MOMENT, MAX_PAIR_BYTES, Moment, NoMemory, Priority, SameSite, TEXT_END,
    Text, Texts, has_host_prefix, has_secure_prefix, is_blank, is_control, is_reserved, undotted,
};
pub use journal::Journal;
pub use law::{
    cookies_rise, entries_count, journals_go_on, listeners_are_taken, listeners_begin,
    listeners_hear, states_go_on, versions_count_turns,
};
pub use limits::{
    HIGH_QUOTA, LEFT_OF_JAR, LEFT_OF_KEY, LOW_QUOTA, MEDIUM_QUOTA, MOST_OF_JAR, MOST_OF_KEY,
    STALE_AFTER,
};
pub use listener::{Listener, Listeners, Scope};
pub use op::{Op, REFRESH_AFTER, Reply};
pub use request::{Context, Request, UNSAFE_GRACE};
pub use row::{Row, RowChange, RowChanges, Rows};
pub use tally::{Tallies, Tally};

#[cfg(test)]
mod tests;
