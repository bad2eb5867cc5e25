//! Which cookies the plans of eviction take away.

ghost use Rattle.std.specs.Prelude.{◌≡◌, ◌<◌, ◌+◌, All, IfOk, filter, map, length, count_by, slice_get, Some};
ghost use Rattle.eviction.specs.Faces as faces;
ghost use Rattle.jar_types.specs.Evictions.{cookie_looks};
ghost use Rattle.jar_types.specs.Ids.{RisesById};
ghost use Rattle.jar_types.specs.Plans as plans;
ghost use Rattle.jar_types.specs.Purges as purges;

use eviction::{Face, global_plan, key_plan};
use jar_types::{Cookie, MOST_OF_JAR, MOST_OF_KEY, Moment, NoMemory, Text};
use std::alloc::Global;

/// The cookies that the plan of a key takes away.
///
/// This jar's own rule: docs/DEFINITIONS.md.
pub fn gone_of_key(alloc: Global, cookies: &[Cookie], key: &Text) -> Result<Vec<Cookie>, NoMemory>
    requires { RisesById cookies.now }
    ensures { IfOk result (λ gone. gone.items
        ≡ plans.key_plan cookie_looks (filter (purges.has_key key.now) cookies.now)) }
{
    if count_of_key(cookies, key) <= MOST_OF_KEY {
        return Ok(Vec::new(alloc));
    }
    let own = of_key(alloc, cookies, key)?;
    let faces = faces_of(alloc, own.as_slice())?;
    let plan = key_plan(alloc, faces.as_slice())?;
    at_places(alloc, own.as_slice(), plan.as_slice())
}

/// The cookies that the plan of the jar takes away, none of which has expired.
///
/// This jar's own rule: docs/DEFINITIONS.md.
pub fn gone_of_jar(alloc: Global, cookies: &[Cookie], now: Moment) -> Result<Vec<Cookie>, NoMemory>
    requires { RisesById cookies.now }
    ensures { IfOk result (λ gone. gone.items ≡ plans.jar_plan cookie_looks now cookies.now) }
{
    if cookies.len() <= MOST_OF_JAR {
        return Ok(Vec::new(alloc));
    }
    let faces = faces_of(alloc, cookies)?;
    let plan = global_plan(alloc, faces.as_slice(), now)?;
    at_places(alloc, cookies, plan.as_slice())
}

/// How many of these cookies a key has.
fn count_of_key(cookies: &[Cookie], key: &Text) -> usize
    ensures { result ≡ count_by (purges.has_key key.now) cookies.now }
{
    cookies.iter().filter(|cookie| cookie.key == *key).count()
}

/// The cookies of a key.
fn of_key(alloc: Global, cookies: &[Cookie], key: &Text) -> Result<Vec<Cookie>, NoMemory>
    ensures { IfOk result (λ own. own.items ≡ filter (purges.has_key key.now) cookies.now) }
{
    let mut own = Vec::new(alloc);
    for cookie in cookies {
        if cookie.key == *key {
            own.push(cookie.copy(alloc)?)?;
        }
    }
    Ok(own)
}

/// What a plan sees of each of these cookies, whose places are the ties.
fn faces_of(alloc: Global, cookies: &[Cookie]) -> Result<Vec<Face>, NoMemory>
    ensures { IfOk result (λ seen. seen.items ≡ faces.faces_of 0 cookies.now) }
{
    let mut seen = Vec::new(alloc);
    for (place, cookie) in cookies.iter().enumerate() {
        seen.push(face_of(place as u64, cookie))?;
    }
    Ok(seen)
}

/// What a plan sees of the cookie at a place.
fn face_of(place: u64, cookie: &Cookie) -> Face
    ensures { result ≡ faces.face_of_cookie cookie.now place }
{
    Face {
        access: cookie.access,
        creation: cookie.creation,
        tie: place,
        priority: cookie.priority,
        secure: cookie.secure,
    }
}

/// The cookies at these places.
fn at_places(alloc: Global, cookies: &[Cookie], places: &[usize]) -> Result<Vec<Cookie>, NoMemory>
    requires { All (λ place. place < length cookies.now) places.now }
    ensures { IfOk result (λ found. map Some found.items
        ≡ map (slice_get cookies.now) places.now) }
{
    let mut found = Vec::new(alloc);
    for place in places {
        found.push(cookies[*place].copy(alloc)?)?;
    }
    Ok(found)
}
