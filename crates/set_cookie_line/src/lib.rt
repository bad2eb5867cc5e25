//! Set-Cookie lines: the name, the value and the attributes of a line, or its first refusal.
#![tactic(auto)]

mod attribute;
mod blanks;
mod cut;
mod kept;
mod line;
mod max_age;

pub use attribute::MAX_ATTRIBUTE_BYTES;
pub use line::{Line, LineRefusal, read_line};
pub use max_age::MAX_AGE_SECONDS;
