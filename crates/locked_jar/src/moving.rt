//! The cells that an entry moves.

ghost use Rattle.std.specs.Prelude.{◌≡◌, [], IfOk, filter_map, length};
ghost use Rattle.jar_types.specs.Bound.{cell_of};
ghost use Rattle.version_cells.specs.Listings.{IsDistinct};
ghost use Rattle.locked_jar.specs.Moving.{AreCells, HasBumped};

use jar_types::{JarCore, NoMemory, Texts};
use std::alloc::Global;
use version_cells::{Baton, Cells};

/// The cells of those of these keys that are bound, in their order.
pub fn cells_of<C: JarCore + Drop>(
    alloc: Global,
    core: &C,
    keys: &Texts,
) -> Result<Vec<u32>, NoMemory>
    ensures { IfOk result (λ cells. cells.items
        ≡ filter_map (λ key. cell_of key (C.state core.now).bound) keys.now) }
{
    let mut cells = Vec::new(alloc);
    for key in keys.as_slice() {
        if let Some(cell) = core.cell_of(key.as_str()) {
            cells.push(cell)?;
        }
    }
    Ok(cells)
}

/// Makes each of these cells pending.
pub fn bump_each(cells: &Cells, baton: &mut Baton, moved: &[u32])
    requires same { baton.old.table ≡ cells.now }
    requires free { baton.old.view.pending ≡ [] }
    requires cells { IsDistinct moved.now × AreCells moved.now }
    ensures { HasBumped baton.old moved.now (length moved.now) baton.new }
{
    for cell in moved {
        cells.bump(baton, *cell);
    }
}
