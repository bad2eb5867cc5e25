//! Laws of what is stored beside a jar: changes of rows, loads, and what journals leave.
#![tactic(auto)]

mod change_law;
mod keep_law;
mod load_law;

pub use change_law::{
    changed_rows_rise, newest_are_touched, newest_rise, newest_tell_all, other_rows_stay,
};
pub use keep_law::{changes_are_stored, row_changes_go_on};
pub use load_law::{
    hosts_ascend, loads_are_honest, loads_begin, loads_fit, loads_go_on, rows_are_of_hosts,
    stored_cookies_fit,
};
