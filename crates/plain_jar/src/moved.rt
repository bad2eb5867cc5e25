//! The keys whose cookies changed.

ghost use Rattle.std.specs.Prelude.{◌≡◌, IfOk, OnOk, map, drop};
ghost use Rattle.jar_types.specs.Changes.{moved_keys};
ghost use Rattle.jar_types.specs.Ids.{text_cmp};
ghost use Rattle.jar_types.specs.Orders.{placed_once};

use jar_types::{Change, NoMemory, Text, Texts};
use std::alloc::Global;
use std::cmp::Ordering;

/// The keys of the cookies that changed, ascending, each once.
///
/// This jar's own rule: docs/DEFINITIONS.md.
pub fn moved(alloc: Global, changes: &[Change]) -> Result<Texts, NoMemory>
    ensures { IfOk result (λ keys. keys ≡ moved_keys changes.now) }
{
    let mut keys = Vec::new(alloc);
    let mut left = changes.len();
    'changes: while left > 0 {
        left -= 1;
        place_once(alloc, &mut keys, &changes[left].cookie.key)?;
    }
    Ok(Texts::from_vec(keys))
}

/// Puts a key in its place among others, where it isn't there yet.
fn place_once(alloc: Global, keys: &mut Vec<Text>, key: &Text) -> Result<(), NoMemory>
    ensures { OnOk result (keys.new.items ≡ placed_once text_cmp key.now keys.old.items) }
{
    let mut place = 0;
    'places: while place < keys.len() {
        match key.cmp(&keys[place]) {
            Ordering::Less => break,
            Ordering::Equal => return Ok(()),
            Ordering::Greater => place += 1,
        }
    }
    keys.insert(place, key.copy(alloc)?)?;
    Ok(())
}
