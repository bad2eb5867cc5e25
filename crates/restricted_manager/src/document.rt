//! How the place of a step stands to the renderer's document.

ghost use Rattle.std.specs.Prelude.{◌≡◌, option_copied};
ghost use Rattle.restricted_manager.specs.Documents as spec;

use site_match::{Place, Scheme};

/// The place of a step: the document's where the step names none.
pub fn asked_place<'place>(document: &'place Place, url: Option<&'place Place>) -> &'place Place
    ensures { result.now ≡ spec.asked_place document.now (option_copied url.entry) }
{
    match url {
        Some(place) => place,
        None => document,
    }
}

/// Whether the place of a step has the document's origin, which it has where the step names none.
pub fn has_own_origin(document: &Place, url: Option<&Place>) -> bool
    ensures { result ≡ spec.is_same_origin (spec.asked_place document.now (option_copied url.entry)) document.now }
{
    match url {
        Some(place) => is_same_origin(place, document),
        None => true,
    }
}

/// Whether the place of a step is the document's, which it is where the step names none.
pub fn is_own_place(document: &Place, url: Option<&Place>) -> bool
    ensures { result ≡ spec.is_same_place (spec.asked_place document.now (option_copied url.entry)) document.now }
{
    match url {
        Some(place) => is_same_place(place, document),
        None => true,
    }
}

/// Whether two places have one origin: the same scheme, host and port.
fn is_same_origin(first: &Place, second: &Place) -> bool
    ensures { result ≡ spec.is_same_origin first.now second.now }
{
    is_same_scheme(first.scheme, second.scheme)
        && first.host == second.host
        && first.port == second.port
}

/// Whether two places are the same, by their scheme, host, port, path and key.
fn is_same_place(first: &Place, second: &Place) -> bool
    ensures { result ≡ spec.is_same_place first.now second.now }
{
    is_same_origin(first, second) && first.path == second.path && first.key == second.key
}

/// Whether two schemes are the same.
fn is_same_scheme(first: Scheme, second: Scheme) -> bool
    ensures { result ≡ spec.is_same_scheme first second }
{
    match (first, second) {
        (Scheme::Http, Scheme::Http)
        | (Scheme::Https, Scheme::Https)
        | (Scheme::Ws, Scheme::Ws)
        | (Scheme::Wss, Scheme::Wss) => true,
        _ => false,
    }
}
