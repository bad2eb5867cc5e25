//! What a step says of itself.

ghost use Rattle.std.specs.Prelude.{◌≡◌, ◌<◌, length, option_map, IfOk, IfErr, MatchOption};
ghost use Rattle.jar_values.specs.declared.text.TheConstants.{TEXT_END};
ghost use Rattle.serde_json.specs.View.{view};
ghost use Rattle.script_text.specs.Readings as reading;
ghost use Rattle.script_text.specs.Placed as placed;
ghost use Rattle.script_text.specs.Walk as walk;

use crate::members::{flag_at, text_at, text_if, text_of};
use crate::refused::ScriptRefusal;
use crate::spot::Spot;
use crate::walk::{place_at, place_if};
use jar_values::NoMemory;
use public_suffix::Suffixes;
use serde_json::Value;
use site_match::{FetchAsk, Place};
use std::alloc::Global;

/// What a step says of itself: its initiator is read, then its site, then its own URL.
///
/// Refuses the first of them that is no place, then want of memory. This jar's own rule:
/// docs/DEFINITIONS.md.
pub fn ask_of(
    alloc: Global,
    suffixes: &Suffixes,
    spot: Spot,
    value: &Value,
) -> Result<FetchAsk, ScriptRefusal>
    ensures ok { IfOk result (placed.IsAskOf suffixes.now (reading.ask_of (view value.now))) }
    ensures err { IfErr result
        (walk.RefusesUrls suffixes.now (walk.ask_urls spot (reading.ask_of (view value.now)))) }
{
    let initiator = place_if(
        alloc,
        suffixes,
        spot,
        "initiator",
        text_if(value, "initiator"),
    )?;
    let written = place_if(alloc, suffixes, spot, "site", site_url(value))?;
    let place = place_at(alloc, suffixes, spot, "url", text_at(value, "url"))?;
    Ok(FetchAsk {
        site: site_by(alloc, value.get("site"), written, &place)?,
        place,
        initiator,
        safe_method: safety_of(value),
        navigation: flag_at(value, "navigation"),
    })
}

/// The URL that a site is written as, where it is one.
pub fn site_url(value: &Value) -> Option<&str>
    ensures value { option_map (λ url. url.now) result
        ≡ reading.site_text (view value.now) }
    ensures short { MatchOption result (Unit {0}) (λ url. length url.now < TEXT_END) }
{
    match value.get("site") {
        Some(site) => {
            if site.is_null() {
                None
            } else {
                Some(text_of(site))
            }
        }
        None => None,
    }
}

/// The site for cookies of a step at this place: its own where the member is absent, none where it
/// is null, or else the one that is written.
fn site_by(
    alloc: Global,
    member: Option<&Value>,
    written: Option<Place>,
    own: &Place,
) -> Result<Option<Place>, NoMemory>
    ensures { IfOk result (λ place. place ≡ placed.site_by
        (reading.site_from (option_map (λ m. view m.now) member.entry)) own.now written) }
{
    match member {
        Some(site) => {
            if site.is_null() {
                Ok(None)
            } else {
                Ok(written)
            }
        }
        None => Ok(Some(own.copy(alloc)?)),
    }
}

/// Whether the method of a step is safe, which is `GET` where it is absent.
fn safety_of(value: &Value) -> bool
    ensures { result ≡ reading.safety_of (view value.now) }
{
    match text_if(value, "method") {
        Some(method) => is_safe(method),
        None => true,
    }
}

/// Whether a method is safe.
///
/// The 6265bis draft, section 5.2.
fn is_safe(method: &str) -> bool
    ensures { result ≡ reading.is_safe method.now }
{
    method == "GET" || method == "HEAD" || method == "OPTIONS" || method == "TRACE"
}
