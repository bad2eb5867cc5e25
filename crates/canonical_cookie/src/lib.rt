//! Cookies of read Set-Cookie lines, and the stored rows of cookies.
#![tactic(auto)]

mod expiry;
mod law;
mod making;
mod refusal;
mod sound;
mod stored;
mod table;

pub use expiry::LONGEST_LIFE;
pub use law::{
    made_cookies_have_their_key, made_rows_are_sound, rows_are_read_back, rows_are_written_back,
};
pub use making::make;
pub use refusal::CookieRefusal;
pub use stored::{from_row, row_of};
