//! What bars a Set.

ghost use Rattle.std.specs.Prelude.{◌≡◌, option_copied};
ghost use Rattle.std.specs.List.{list_any};
ghost use Rattle.jar_types.specs.Sets as sets;

use crate::by_id::ById;
use jar_types::{Cookie, Reply, undotted};
use site_match::{domain_match, path_match};

/// The reply where a Set of a cookie among these is barred: by a Secure cookie where the source isn't
/// secure, else by an HttpOnly cookie of the same id where a script asks; none where it isn't.
///
/// The 6265bis draft, section 5.7; that keys are equal is this jar's own rule: docs/DEFINITIONS.md.
pub fn barred(cookies: &ById, cookie: &Cookie, script: bool, secure: bool) -> Option<Reply>
    ensures { result ≡ sets.barred script secure cookie.now cookies.now }
{
    if !secure && is_shielded(cookies.as_slice(), cookie) {
        Some(Reply::OverwriteSecure)
    } else if script && is_http_only(cookies.old_of(cookie)) {
        Some(Reply::OverwriteHttpOnly)
    } else {
        None
    }
}

/// Whether one of these cookies shields its like from a source that isn't secure.
fn is_shielded(cookies: &[Cookie], cookie: &Cookie) -> bool
    ensures { result ≡ list_any (sets.shields cookie.now) cookies.now }
{
    cookies.iter().any(|other| shields(cookie, other))
}

/// Whether another cookie is a Secure one of the same key and name, of a domain that meets the
/// cookie's, and on whose path the cookie's lies.
fn shields(cookie: &Cookie, other: &Cookie) -> bool
    ensures { result ≡ sets.shields cookie.now other.now }
{
    other.secure
        && other.key == cookie.key
        && other.name == cookie.name
        && domains_meet(cookie.host.as_str(), other.host.as_str())
        && path_match(cookie.path.as_str(), other.path.as_str())
}

/// Whether of the hosts of two cookies one is in the domain of the other.
fn domains_meet(host: &str, other: &str) -> bool
    ensures { result ≡ sets.domains_meet host.now other.now }
{
    domain_match(undotted(host), undotted(other)) || domain_match(undotted(other), undotted(host))
}

/// Whether an HttpOnly cookie is there.
fn is_http_only(cookie: Option<&Cookie>) -> bool
    ensures { result ≡ sets.is_http_only (option_copied cookie.entry) }
{
    match cookie {
        None => false,
        Some(cookie) => cookie.http_only,
    }
}
