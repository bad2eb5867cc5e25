//! Versions of the cells of bound keys.

ghost use Rattle.std.specs.Prelude.{◌≡◌, ◌<◌, ◌-◌, ◌^◌, map};
ghost use Rattle.jar_types.specs.Bound as bounds;
ghost use Rattle.jar_types.specs.Counts.{VersionsUpTo};

use jar_types::{BoundKey, BoundKeys, Change, Text};

/// The version of a key's cell behind these changes; none where it isn't bound.
///
/// This jar's own rule: docs/DEFINITIONS.md.
#[tactic(auto, using(jar_types::proofs::HistoryLemmas::versions_turn, jar_types::proofs::CountLemmas::version_up_to))]
pub fn version_behind(bound: &BoundKeys, key: &Text, changes: &[Change]) -> Option<u64>
    requires { VersionsUpTo (2 ^ 64 - 2) bound.now }
    ensures { result ≡ bounds.version_of key.now (map (bounds.turned changes.now) bound.now) }
{
    let found = version_of(bound.as_slice(), key);
    match found {
        Some(version) if changes_key(changes, key) => Some(version + 1),
        _ => found,
    }
}

/// The version of a key's cell; none where it isn't bound.
fn version_of(bound: &[BoundKey], key: &Text) -> Option<u64>
    ensures { result ≡ bounds.version_of key.now bound.now }
{
    match bound.iter().find(|b| b.key == *key) {
        Some(found) => Some(found.version),
        None => None,
    }
}

/// The bound keys behind these changes: of those whose cookies changed the version rises by one.
///
/// This jar's own rule: docs/DEFINITIONS.md.
pub fn turned(bound: BoundKeys, changes: &[Change]) -> BoundKeys
    requires { VersionsUpTo (2 ^ 64 - 2) bound }
    ensures { result ≡ map (bounds.turned changes.now) bound }
{
    let mut all = bound.into_vec();
    turn_vec(&mut all, changes);
    BoundKeys::from_vec(all)
}

/// Turns the keys of a vector.
fn turn_vec(bound: &mut Vec<BoundKey>, changes: &[Change])
    requires { VersionsUpTo (2 ^ 64 - 2) bound.old.items }
    ensures { bound.new.items ≡ map (bounds.turned changes.now) bound.old.items }
{
    turn_all(bound.as_mut_slice(), changes);
}

/// Turns each of these keys.
fn turn_all(bound: &mut [BoundKey], changes: &[Change])
    requires { VersionsUpTo (2 ^ 64 - 2) bound.old }
    ensures { bound.new ≡ map (bounds.turned changes.now) bound.old }
{
    for key in bound.iter_mut() {
        turn(key, changes);
    }
}

/// Turns a key, whose version rises by one where its cookies changed.
fn turn(bound: &mut BoundKey, changes: &[Change])
    requires { bound.old.version < 2 ^ 64 - 1 }
    ensures { bound.new ≡ bounds.turned changes.now bound.old }
{
    if changes_key(changes, &bound.key) {
        bound.version += 1;
    }
}

/// Whether some of the changes are of a cookie of a key.
fn changes_key(changes: &[Change], key: &Text) -> bool
    ensures { result ≡ bounds.changes_key key.now changes.now }
{
    changes.iter().any(|change| change.cookie.key == *key)
}
