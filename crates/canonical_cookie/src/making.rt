//! Cookies of lines.

ghost use Rattle.std.specs.Prelude.{◌≡◌, ◌||◌, ◌++◌, IfOk, codes, unwrap_or};
ghost use Rattle.site_match.specs.DefaultPaths as paths;
ghost use Rattle.canonical_cookie.specs.Making as spec;

use crate::expiry::expiry_of;
use crate::refusal::CookieRefusal;
use crate::table::{has_suffix_domain, refuse};
use jar_types::{Context, Cookie};
use jar_values::{Moment, NoMemory, Text};
use public_suffix::{Suffixes, is_ip_host};
use set_cookie_line::Line;
use site_match::{Place, default_path};
use std::alloc::Global;

/// The cookie that a line makes at a place now, in a context, where a script sets it or HTTP.
///
/// Refusals, in this order: those of [`CookieRefusal`] as they stand there, and want of memory.
///
/// The 6265bis draft, section 5.7; the key and the order are this jar's own rule:
/// docs/DEFINITIONS.md.
#[tactic(auto, unfolding(crate::specs::Making::made))]
pub fn make(
    alloc: Global,
    suffixes: &Suffixes,
    line: &Line,
    place: &Place,
    context: Context,
    script: bool,
    now: Moment,
) -> Result<Cookie, CookieRefusal>
    ensures { spec.Makes suffixes.now line.now place.now context script now result }
{
    let suffix = has_suffix_domain(suffixes, line);
    refuse(suffixes, suffix, line, place, context, script)?;
    Ok(cookie_of(alloc, suffix, line, place, now)?)
}

/// The cookie of a line that nothing refuses, by whether its Domain is a public suffix.
fn cookie_of(
    alloc: Global,
    suffix: bool,
    line: &Line,
    place: &Place,
    now: Moment,
) -> Result<Cookie, NoMemory>
    ensures { IfOk result (λ c. c ≡ spec.cookie_of suffix line.now place.now now) }
{
    Ok(Cookie {
        key: place.key.copy(alloc)?,
        host: host_of(alloc, suffix, line, place)?,
        name: line.name.copy(alloc)?,
        path: path_of(alloc, line, place)?,
        value: line.value.copy(alloc)?,
        creation: now,
        access: now,
        expiry: expiry_of(line, now),
        secure: line.secure,
        http_only: line.http_only,
        same_site: line.same_site,
        priority: line.priority,
    })
}

/// The host of a line's cookie, by whether the Domain is a public suffix: the place's, or a dot and the
/// Domain.
fn host_of(alloc: Global, suffix: bool, line: &Line, place: &Place) -> Result<Text, NoMemory>
    ensures { IfOk result (λ h. h ≡ spec.host_by suffix place.now.host line.now.domain) }
{
    match &line.domain {
        Some(domain) if !suffix && !is_ip_host(place.host.as_str()) => dotted(alloc, domain),
        _ => place.host.copy(alloc),
    }
}

/// A dot and a domain.
fn dotted(alloc: Global, domain: &Text) -> Result<Text, NoMemory>
    ensures { IfOk result (λ h. h ≡ codes "." ++ domain.now) }
{
    let mut host = String::with_capacity(alloc, domain.as_str().len() + 1)?;
    host.push_str(".")?;
    host.push_str(domain.as_str())?;
    Ok(Text::from_string(host)?)
}

/// The Path, or the default path of the place.
fn path_of(alloc: Global, line: &Line, place: &Place) -> Result<Text, NoMemory>
    ensures { IfOk result
        (λ p. p ≡ unwrap_or line.now.path (paths.default_path place.now.path)) }
{
    match &line.path {
        Some(path) => path.copy(alloc),
        None => Text::of(alloc, default_path(place.path.as_str())),
    }
}

#[cfg(test)]
mod tests;
