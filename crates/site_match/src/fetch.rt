//! How a fetch stands to the site that it is made for.

ghost use Rattle.std.specs.Prelude.{◌≡◌};
ghost use Rattle.site_match.specs.Contexts as spec;
ghost use Rattle.site_match.specs.Contexts.{context_of, is_same_site};

use crate::place::Place;
use jar_types::Context;

/// What a fetch says of itself: its place, the site for cookies and the initiator where they are
/// known, whether its method is safe (GET, HEAD, OPTIONS or TRACE), and whether it is a navigation.
///
/// The 6265bis draft, section 5.2.
#[derive(Drop)]
pub struct FetchAsk {
    pub place: Place,
    pub site: Option<Place>,
    pub initiator: Option<Place>,
    pub safe_method: bool,
    pub navigation: bool,
}

/// The context of a fetch.
///
/// This jar's own rule, after the 6265bis draft, section 5.2: docs/DEFINITIONS.md.
pub fn context(ask: &FetchAsk) -> Context
    ensures { result ≡ context_of ask.now }
{
    if ask.navigation {
        navigation_context(&ask.place, &ask.initiator, ask.safe_method)
    } else {
        fetch_context(&ask.place, &ask.site)
    }
}

/// The context of a navigation.
fn navigation_context(place: &Place, initiator: &Option<Place>, safe_method: bool) -> Context
    ensures { result ≡ spec.navigation_context place.now initiator.now safe_method }
{
    match initiator {
        None => Context::Strict,
        Some(initiator) => {
            if same_site(initiator, place) {
                Context::Strict
            } else if safe_method {
                Context::Lax
            } else {
                Context::LaxUnsafe
            }
        }
    }
}

/// The context of a fetch that is no navigation.
fn fetch_context(place: &Place, site: &Option<Place>) -> Context
    ensures { result ≡ spec.fetch_context place.now site.now }
{
    match site {
        None => Context::Cross,
        Some(site) => {
            if same_site(site, place) {
                Context::Strict
            } else {
                Context::Cross
            }
        }
    }
}

/// Whether two places are of one site.
fn same_site(first: &Place, second: &Place) -> bool
    ensures { result ≡ is_same_site first.now second.now }
{
    first.scheme.is_secure() == second.scheme.is_secure() && first.key == second.key
}
