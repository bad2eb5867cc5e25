//! The walk through the URLs of a script, each at its path.

ghost use Rattle.std.specs.Prelude.{◌≡◌, ◌∷◌, [], ◌<◌, length, option_map, IfOk, IfErr, MatchOption};
ghost use Rattle.jar_values.specs.declared.text.TheConstants.{TEXT_END};
ghost use Rattle.script_text.specs.Placed.{IsPlaceIf};
ghost use Rattle.script_text.specs.Walk as spec;

use crate::refused::{Refusal, Refused, ScriptRefusal};
use crate::spot::Spot;
use jar_values::{NoMemory, TEXT_END};
use public_suffix::Suffixes;
use site_match::{Place, PlaceRefusal};
use std::alloc::Global;

/// The place of the URL that a member is.
///
/// Refuses a URL that is no place, then want of memory. This jar's own rule: docs/DEFINITIONS.md.
pub fn place_at(
    alloc: Global,
    suffixes: &Suffixes,
    spot: Spot,
    key: &str,
    url: &str,
) -> Result<Place, ScriptRefusal>
    requires { length url.now < TEXT_END }
    ensures ok { IfOk result (spec.IsPlace suffixes.now url.now) }
    ensures err { IfErr result
        (spec.RefusesUrls suffixes.now (spec.url_at spot key.now url.now ∷ [])) }
{
    match place_of(alloc, suffixes, url)? {
        Some(place) => Ok(place),
        None => Err(bad_place(alloc, spot, key)?),
    }
}

/// The place of the URL that a member may be, as [`place_at`] reads it.
pub fn place_if(
    alloc: Global,
    suffixes: &Suffixes,
    spot: Spot,
    key: &str,
    url: Option<&str>,
) -> Result<Option<Place>, ScriptRefusal>
    requires { MatchOption url (Unit {0}) (λ url. length url.now < TEXT_END) }
    ensures ok { IfOk result (IsPlaceIf suffixes.now (option_map (λ url. url.now) url.entry)) }
    ensures err { IfErr result (spec.RefusesUrls suffixes.now
        (spec.urls_at spot key.now (option_map (λ url. url.now) url.entry))) }
{
    match url {
        Some(url) => Ok(Some(place_at(alloc, suffixes, spot, key, url)?)),
        None => Ok(None),
    }
}

/// The place of a URL; none where it is no place.
fn place_of(alloc: Global, suffixes: &Suffixes, url: &str) -> Result<Option<Place>, NoMemory>
    requires { length url.now < TEXT_END }
    ensures { IfOk result (spec.Places suffixes.now url.now) }
{
    match Place::read(alloc, suffixes, url) {
        Ok(place) => Ok(Some(place)),
        Err(PlaceRefusal::NoMemory) => Err(NoMemory),
        Err(_) => Ok(None),
    }
}

/// The refusal of the URL that a member is.
fn bad_place(alloc: Global, spot: Spot, key: &str) -> Result<ScriptRefusal, NoMemory>
    ensures { IfOk result (λ refusal. refusal
        ≡ ScriptRefusal.Refused (spec.bad_place (spec.member_path spot key.now))) }
{
    Ok(ScriptRefusal::Refused(Refused {
        name: Refusal::BadPlace,
        path: spot.member_path(alloc, key)?,
    }))
}
