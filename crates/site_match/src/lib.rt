//! Places of URLs, which cookies match a request, and how a fetch stands to its site.
#![tactic(auto)]

mod fetch;
mod host;
mod matching;
mod path;
mod place;
mod scheme;

pub use fetch::{FetchAsk, context};
pub use host::domain_match;
pub use matching::matches;
pub use path::{default_path, path_match};
pub use place::{Place, PlaceRefusal};
pub use scheme::Scheme;

#[cfg(test)]
mod tests;
