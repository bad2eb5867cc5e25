//! Keys by their places among those of a plan.

ghost use Rattle.std.specs.Prelude.{◌≡◌, IfOk, ◌&&◌, not, slice_get};
ghost use Rattle.std.specs.List.Sorted.{IsStrictlySortedBy};
ghost use Rattle.std.specs.Option.{option_or};
ghost use Rattle.std.specs.Ordering.{nat_cmp};
ghost use Rattle.std.specs.Vec.{vec_capacity};
ghost use Rattle.jar_types.specs.Ids.{text_cmp};
ghost use Rattle.key_loader.specs.Groups.{keys_of};
ghost use Rattle.key_loader.specs.Places as spec;
ghost use Rattle.key_loader.specs.Places.{IsPlaceOf};

use crate::group::Group;
use jar_values::NoMemory;
use std::alloc::Global;
use std::cmp::Ordering;

/// The place of a key among those of groups; none where it isn't there.
pub fn place_of(groups: &[Group], key: &str) -> Option<usize>
    requires { IsStrictlySortedBy text_cmp (keys_of groups.now) }
    ensures { IsPlaceOf key.now (keys_of groups.now) result }
{
    groups.binary_search_by(|group| key_cmp(group, key)).ok()
}

/// The order of the key of a group and another.
fn key_cmp(group: &Group, key: &str) -> Ordering
    ensures { result ≡ text_cmp group.now.key key.now }
{
    group.key.as_str().cmp(key)
}

/// The first places, as many as these.
pub fn first_places(alloc: Global, n: usize) -> Result<Vec<usize>, NoMemory>
    ensures { IfOk result (λ places. places.items ≡ spec.first_places n) }
{
    let mut places = Vec::new(alloc);
    for place in 0..n {
        places.push(place)?;
    }
    Ok(places)
}

/// Whether a place is among others.
pub fn has_place(places: &[usize], place: usize) -> bool
    ensures { result ≡ spec.has_place place places.now }
{
    places.contains(&place)
}

/// Whether a place is among others, which rise.
pub fn is_unloaded(places: &[usize], place: usize) -> bool
    requires { IsStrictlySortedBy nat_cmp places.now }
    ensures { result ≡ spec.has_place place places.now }
{
    places.binary_search(&place).is_ok()
}

/// The place of the key that is to be loaded next; none where none is left.
pub fn next_place(unloaded: &[usize], wanted: &[usize], begun: Option<usize>) -> Option<usize>
    ensures { result
        ≡ option_or begun (option_or (slice_get wanted.now 0) (slice_get unloaded.now 0)) }
{
    begun
        .or(wanted.first().copied())
        .or(unloaded.first().copied())
}

/// Whether the key at a place may come to be wanted: it is neither loaded, nor wanted, nor marked.
pub fn may_want(unloaded: &[usize], wanted: &[usize], lost: &[usize], place: usize) -> bool
    requires { IsStrictlySortedBy nat_cmp unloaded.now }
    ensures { result ≡ (spec.has_place place unloaded.now
        && (not (spec.has_place place wanted.now) && not (spec.has_place place lost.now))) }
{
    is_unloaded(unloaded, place) && !has_place(wanted, place) && !has_place(lost, place)
}

/// Takes a place out of others. Whether it was there.
pub fn take_out(places: &mut Vec<usize>, place: usize) -> bool
    ensures value { result ≡ spec.has_place place places.old.items }
    ensures items { places.new.items ≡ spec.without_place place places.old.items }
    ensures capacity { vec_capacity places.new ≡ vec_capacity places.old }
{
    let was_there = has_place(places, place);
    places.retain(|other| *other != place);
    was_there
}
