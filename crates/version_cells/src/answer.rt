//! Answering a call.

ghost use Rattle.std.specs.Prelude.{◌≡◌};
ghost use Rattle.version_cells.specs.Standing.{pass_with_answer};
ghost use Rattle.version_cells.specs.Answered.{MayAnswer};

use crate::cells::Cells;
use crate::pass::Pass;

impl Cells {
    /// Moves the pass's front to all that it has seen, which ends with the entry of its call.
    ///
    /// It reads no word. This jar's own rule: docs/DEFINITIONS.md.
    pub fn answered(&self, pass: &mut Pass)
        requires same { pass.old.table ≡ self.now }
        requires due { MayAnswer pass.old }
        ensures { pass.new ≡ pass_with_answer pass.old }
    {
        pass.front = pass.seen;
    }
}
