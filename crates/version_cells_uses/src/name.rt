//! Names of tables.

use std::marker::Brand;

/// Names one table of words, so that a lock's type says which it is.
pub trait Name {
    ghost use Rattle.atomic_table.specs.Seated.{TableId};

    ghost table: { TableId };
}

// What stands here is not used: whoever calls a function with `Brand` picks the table in its proof.
impl Name for Brand {
    ghost use Rattle.version_cells_uses.specs.Ready.{no_table};

    ghost table = { no_table };
}
