//! Bind: a key gets a cell.

ghost use Rattle.std.specs.Prelude.{◌≡◌, ◌≤◌, IfOk, length, position};
ghost use Rattle.jar_types.specs.Bound as bounds;
ghost use Rattle.jar_types.specs.declared.bound_key.TheConstants.{MOST_CELLS as CELLS};

use crate::content::Content;
use crate::stepped::Stepped;
use jar_types::{BoundKey, BoundKeys, MOST_CELLS, NoMemory, Reply, Text};
use std::alloc::Global;

/// The key has a cell from then on, where one was left for it.
///
/// This jar's own rule: docs/DEFINITIONS.md.
pub fn bind(alloc: Global, content: &Content, key: &Text) -> Result<Stepped, NoMemory>
    requires { length content.now.bound ≤ CELLS }
    ensures { IfOk result (λ s. s ≡ bounds.bind_step content.now key.now) }
{
    let mut next = content.copy(alloc)?;
    next.bound = bound_with(alloc, &content.bound, key)?;
    let cell = cell_of(&next.bound, key.as_str());
    Ok(Stepped {
        content: next,
        reply: Reply::Cell(cell),
        changes: Vec::new(alloc),
    })
}

/// The bound keys, among which a key is where a cell was left for it.
fn bound_with(alloc: Global, bound: &BoundKeys, key: &Text) -> Result<BoundKeys, NoMemory>
    requires { length bound.now ≤ CELLS }
    ensures value { IfOk result (λ all. all ≡ bounds.bound_with key.now bound.now) }
    ensures few { IfOk result (λ all. length all ≤ CELLS) }
{
    let mut all = bound.copy(alloc)?;
    if cell_of(bound, key.as_str()).is_none() && all.len() < MOST_CELLS as usize {
        all.push(BoundKey {
            key: key.copy(alloc)?,
            version: 0,
        })?;
    }
    Ok(all)
}

/// The cell of a key, from 1; none where it isn't bound.
///
/// This jar's own rule: docs/DEFINITIONS.md.
pub fn cell_of(bound: &BoundKeys, key: &str) -> Option<u32>
    requires { length bound.now ≤ CELLS }
    ensures { result ≡ bounds.cell_of key.now bound.now }
{
    match place_of(bound.as_slice(), key) {
        Some(place) => Some(place as u32 + 1),
        None => None,
    }
}

/// The place of a key among those that are bound, from 0; none where it isn't there.
fn place_of(bound: &[BoundKey], key: &str) -> Option<usize>
    ensures { result ≡ position (bounds.is_bound_to key.now) bound.now }
{
    bound.iter().position(|b| b.key.as_str() == key)
}
