//! Laws of what waits and what is held beside a journal: changes of rows, and a keeper's rows.
#![tactic(auto)]

mod beside;
mod held;

pub use beside::{
    beside_begins, beside_goes_on, kept_rises, kept_where_out, pending_is_touched, pending_rises,
};
pub use held::{
    acked_is_there, all_acked_is_stored, all_is_held, batch_is_stored, held_begins, held_goes_on,
    held_is_acked, held_is_stored, held_rises, left_is_held, loads_stay_honest, settled_is_stored,
};
