//! Trying to reuse a kept text.

ghost use Rattle.std.specs.Prelude.{◌≡◌};
ghost use Rattle.renderer_cache.specs.Reuse.{IsReuse};

use crate::kept::Kept;
use jar_types::Moment;
use version_cells::{Cells, Pass};

/// The answer of `Kept::try_reuse`.
///
/// This jar's own rule: docs/DEFINITIONS.md.
#[derive(Clone, Copy)]
pub enum Reuse<'kept> {
    /// The moment is not below the kept text's `until`: no look was made.
    Late,
    /// The look found the kept version: the kept text.
    Hit(&'kept str),
    /// The look found another version.
    Moved {
        /// The kept version.
        kept: u64,
        /// The number that the look found.
        found: u64,
    },
}

impl Kept {
    /// Whether the text may be reused at `now`, by one look at most.
    ///
    /// Late where `now` is not below `until`, and then no look. Else one look decides: a hit where
    /// it found the kept version, and moved, with both numbers, where it found another. No look
    /// goes back. It takes no memory and waits for nobody.
    /// This jar's own rule: docs/DEFINITIONS.md.
    pub fn try_reuse<'kept>(
        &'kept self,
        cells: &Cells,
        pass: &mut Pass,
        now: Moment,
    ) -> Reuse<'kept>
        requires same { pass.old.table ≡ cells.now }
        ensures { IsReuse self.now now pass.old pass.new result }
    {
        if now.ms() >= self.until {
            return Reuse::Late;
        }
        let found = cells.look(pass, self.cell);
        if found == self.version {
            Reuse::Hit(self.text.as_str())
        } else {
            Reuse::Moved {
                kept: self.version,
                found,
            }
        }
    }
}
