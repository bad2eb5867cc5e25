//! The changes that were committed so far, which clauses alone read.

ghost use Rattle.std.specs.Prelude.{◌≡◌, List, [], ◌++◌};
ghost use Rattle.std.specs.Borrow.{ftrue};
ghost use Rattle.std.specs.Coded.{coded_list};
ghost use Rattle.jar_types.specs.contracts.row.RowChange as change;
ghost use Rattle.jar_types.specs.declared.row.RowChange.{RowChange as ChangeData};

use jar_types::RowChange;
use std::marker::Model;

/// The changes that were committed so far, one after another.
///
/// It takes no memory, and its calls do nothing at run time. This jar's own rule:
/// docs/DEFINITIONS.md.
#[derive(Drop)]
pub struct Committed {
    pub ghost changes: { List ChangeData } by { coded_list change.the_row.coded },
}

impl Model for Committed {
    ghost also_owns = { λ _. ftrue };
}

impl Committed {
    /// No change was committed.
    pub fn new() -> Committed
        ensures { result.changes ≡ [] }
    {
        Committed {}
    }

    /// Notes that these changes were committed.
    pub fn note(&mut self, _changes: &[RowChange])
        ensures { self.new.changes ≡ self.old.changes ++ _changes.now }
    {}
}
