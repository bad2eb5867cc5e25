//! Cookie dates: the moment that the bytes of an `Expires` value name.
#![tactic(auto)]

mod calendar;
mod date;
mod number;
mod parts;
mod token;

pub use calendar::MIN_YEAR;
pub use date::cookie_date;
