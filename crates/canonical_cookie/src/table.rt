//! The table of refusals, and the facts that it asks for.

ghost use Rattle.std.specs.Prelude.{◌≡◌, MatchResult, true, false, None, Some};
ghost use Rattle.std.specs.Char.{is_ascii};
ghost use Rattle.std.specs.List.{list_all};
ghost use Rattle.canonical_cookie.specs.Refusals as spec;

use crate::refusal::CookieRefusal::{
    self, CrossSite, DomainMismatch, DomainNotAscii, DomainSuffix, HttpOnlyFromScript, KeyMismatch,
    NoneInsecure, PrefixHost, PrefixNameless, PrefixSecure, SecureFromInsecure,
};
use jar_types::Context;
use jar_values::{SameSite, has_host_prefix, has_secure_prefix, is_reserved};
use public_suffix::Suffixes;
use set_cookie_line::Line;
use site_match::{Place, domain_match};

/// The refusals of a line at a place in their order, which is told whether the Domain is a public
/// suffix.
///
/// The 6265bis draft, section 5.7; the order is this jar's own rule: docs/DEFINITIONS.md.
pub fn refuse(
    suffixes: &Suffixes,
    suffix: bool,
    line: &Line,
    place: &Place,
    context: Context,
    script: bool,
) -> Result<(), CookieRefusal>
    requires { suffix ≡ spec.has_suffix_domain suffixes.now line.now }
    ensures { MatchResult result
        (λ _. spec.first_refusal suffixes.now line.now place.now context script ≡ None)
        (λ e. spec.first_refusal suffixes.now line.now place.now context script ≡ Some e) }
{
    refuse_if(is_domain_not_ascii(line), DomainNotAscii)?;
    refuse_if(suffix && has_other_domain(line, place), DomainSuffix)?;
    refuse_if(is_domain_mismatch(line, place), DomainMismatch)?;
    refuse_if(is_key_mismatch(suffixes, line, place), KeyMismatch)?;
    refuse_if(is_secure_from_insecure(line, place), SecureFromInsecure)?;
    refuse_if(line.http_only && script, HttpOnlyFromScript)?;
    refuse_if(is_none_insecure(line), NoneInsecure)?;
    refuse_if(is_cross_site(line, context), CrossSite)?;
    refuse_if(is_prefix_secure(line), PrefixSecure)?;
    refuse_if(is_prefix_host(line), PrefixHost)?;
    refuse_if(is_prefix_nameless(line), PrefixNameless)
}

/// The refusal, where it applies.
fn refuse_if(applies: bool, refusal: CookieRefusal) -> Result<(), CookieRefusal>
    ensures { MatchResult result (λ _. applies ≡ false) (λ e. (applies ≡ true) × (e ≡ refusal)) }
{
    if applies { Err(refusal) } else { Ok(()) }
}

/// Whether the Domain is a public suffix.
///
/// The 6265bis draft, section 5.7.
pub fn has_suffix_domain(suffixes: &Suffixes, line: &Line) -> bool
    ensures { result ≡ spec.has_suffix_domain suffixes.now line.now }
{
    match &line.domain {
        Some(domain) => suffixes.is_suffix(domain.as_str()),
        None => false,
    }
}

/// Whether the Domain isn't the host.
fn has_other_domain(line: &Line, place: &Place) -> bool
    ensures { result ≡ spec.has_other_domain line.now place.now }
{
    match &line.domain {
        Some(domain) => domain.as_str() != place.host.as_str(),
        None => false,
    }
}

/// Whether the Domain has a byte above 7F.
fn is_domain_not_ascii(line: &Line) -> bool
    ensures { result ≡ spec.is_domain_not_ascii line.now }
{
    match &line.domain {
        Some(domain) => !are_ascii(domain.as_str().as_bytes()),
        None => false,
    }
}

/// Whether all bytes are ASCII.
fn are_ascii(bytes: &[u8]) -> bool
    ensures { result ≡ list_all is_ascii bytes.now }
{
    bytes.iter().all(|byte| byte.is_ascii())
}

/// Whether the host doesn't domain-match the Domain.
fn is_domain_mismatch(line: &Line, place: &Place) -> bool
    ensures { result ≡ spec.is_domain_mismatch line.now place.now }
{
    match &line.domain {
        Some(domain) => !domain_match(place.host.as_str(), domain.as_str()),
        None => false,
    }
}

/// Whether the Domain has another key than the host.
fn is_key_mismatch(suffixes: &Suffixes, line: &Line, place: &Place) -> bool
    ensures { result ≡ spec.is_key_mismatch suffixes.now line.now place.now }
{
    match &line.domain {
        Some(domain) => suffixes.key(domain.as_str()) != place.key.as_str(),
        None => false,
    }
}

/// Whether Secure is given from a place that isn't.
fn is_secure_from_insecure(line: &Line, place: &Place) -> bool
    ensures { result ≡ spec.is_secure_from_insecure line.now place.now }
{
    line.secure && !place.scheme.is_secure()
}

/// Whether SameSite is None.
fn is_no_limit(same_site: SameSite) -> bool
    ensures { result ≡ spec.is_no_limit same_site }
{
    matches!(same_site, SameSite::NoLimit)
}

/// Whether SameSite is None without Secure.
fn is_none_insecure(line: &Line) -> bool
    ensures { result ≡ spec.is_none_insecure line.now }
{
    is_no_limit(line.same_site) && !line.secure
}

/// Whether the line comes from another site without SameSite None.
fn is_cross_site(line: &Line, context: Context) -> bool
    ensures { result ≡ spec.is_cross_site line.now context }
{
    matches!(context, Context::Cross) && !is_no_limit(line.same_site)
}

/// Whether the name begins with `__Secure-`, and Secure isn't given.
fn is_prefix_secure(line: &Line) -> bool
    ensures { result ≡ spec.is_prefix_secure line.now }
{
    has_secure_prefix(line.name.as_str()) && !line.secure
}

/// Whether the name begins with `__Host-`, and the line doesn't ask for the root of one secure host.
fn is_prefix_host(line: &Line) -> bool
    ensures { result ≡ spec.is_prefix_host line.now }
{
    has_host_prefix(line.name.as_str()) && !is_of_one_root(line)
}

/// Whether the line asks for the root of one secure host: with Secure, no Domain, and the Path `/`.
fn is_of_one_root(line: &Line) -> bool
    ensures { result ≡ spec.is_of_one_root line.now }
{
    line.secure && line.domain.is_none() && has_root_path(line)
}

/// Whether the Path is `/`.
fn has_root_path(line: &Line) -> bool
    ensures { result ≡ spec.has_root_path line.now }
{
    match &line.path {
        Some(path) => path.as_str() == "/",
        None => false,
    }
}

/// Whether there is no name, and the value begins with `__Secure-` or `__Host-`.
fn is_prefix_nameless(line: &Line) -> bool
    ensures { result ≡ spec.is_prefix_nameless line.now }
{
    line.name.as_str().is_empty() && is_reserved(line.value.as_str())
}
