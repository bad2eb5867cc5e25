//! The manager of one renderer.

ghost use Rattle.std.specs.Prelude.{◌≡◌, IfOk};
ghost use Rattle.restricted_manager.specs.Managers.{MayBeBound, new_manager, with_cell};

use jar_types::NoMemory;
use renderer_cache::Kept;
use site_match::Place;
use std::alloc::Global;
use std::marker::Model;

/// What a renderer does with cookies for its document, seen as the document, its site for cookies,
/// the cell of its key, and the answer that is kept.
///
/// The cell is from 1 to `CELLS` of the version words, and what is kept is of the bound cell.
/// This jar's own rule: docs/DEFINITIONS.md.
#[derive(Drop)]
pub struct Manager {
    pub(crate) document: Place,
    pub(crate) site: Option<Place>,
    pub(crate) cell: Option<u32>,
    pub(crate) kept: Option<Kept>,
}

impl Model for Manager {
    ghost use Rattle.restricted_manager.specs.Managers.{ManagerStanding, MayBeBound, MayBeKept};

    ghost Value = { ManagerStanding };

    ghost view = { λ m. record {
      document = m.document;
      site = m.site;
      cell = m.cell;
      kept = m.kept;
    } };

    ghost invariant = { λ m. MayBeBound m.cell × MayBeKept m.cell m.kept };
}

impl Manager {
    /// The manager of a document and its site for cookies, with no cell and nothing kept.
    ///
    /// Only want of memory refuses. This jar's own rule: docs/DEFINITIONS.md.
    pub fn make(_alloc: Global, document: Place, site: Option<Place>) -> Result<Manager, NoMemory>
        ensures { result ≡ Ok (new_manager document site) }
    {
        Ok(Manager {
            document,
            site,
            cell: None,
            kept: None,
        })
    }

    /// The document's key is bound to this cell, or to none. What was kept is dropped.
    ///
    /// It takes no memory. This jar's own rule: docs/DEFINITIONS.md.
    pub fn bound(&mut self, cell: Option<u32>)
        requires { MayBeBound cell }
        ensures { self.new ≡ with_cell self.old cell }
    {
        self.cell = cell;
        self.kept = None;
    }
}
