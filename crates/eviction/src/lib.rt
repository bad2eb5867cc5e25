//! Which cookies leave where a key or the jar has too many.
#![tactic(auto)]

mod candidate;
mod face;
mod jar;
mod key;
mod law;
mod spared;

pub use face::Face;
pub use jar::global_plan;
pub use key::key_plan;
pub use law::{
    cookies_go_by_faces, jars_are_swept, keys_go_in_rounds, keys_keep_enough, no_spared_goes,
    plans_forget_order, swept_jars_are_small, thinned_keys_are_small,
};

#[cfg(test)]
mod tests;
