//! Keeping the answers of reads.

ghost use Rattle.std.specs.Prelude.{◌≡◌, IfOk, MatchResult, option_copied};
ghost use Rattle.version_cells.specs.Listings.{IsCell};
ghost use Rattle.restricted_manager.specs.Keeping.{IsAnswer, KeepsAnswer, answer_in, answer_of};

use crate::document::is_own_place;
use crate::manager::Manager;
use jar_types::{NoMemory, Reply};
use renderer_cache::Kept;
use site_match::Place;
use std::alloc::Global;

impl Manager {
    /// Keeps a copy of the text of a reply to a read of a URL, or of the document where none is
    /// given.
    ///
    /// It is kept exactly where the read was of the document's URL, a cell is bound, and the reply
    /// is that of a script's read with a version. Every other reply leaves what was kept. Want of
    /// memory leaves the manager as it was. This jar's own rule: docs/DEFINITIONS.md.
    pub fn end_read(
        &mut self,
        alloc: Global,
        url: Option<&Place>,
        reply: &Reply,
    ) -> Result<(), NoMemory>
        ensures { MatchResult result
            (λ _. KeepsAnswer (answer_of self.old (option_copied url.entry) reply.now) self.old self.new)
            (λ _. self.new ≡ self.old) }
    {
        if !is_own_place(&self.document, url) {
            return Ok(());
        }
        let Some(cell) = self.cell else {
            return Ok(());
        };
        if let Some(kept) = kept_of(alloc, cell, reply)? {
            self.keep(kept);
        }
        Ok(())
    }

    /// Keeps this in the place of what was kept.
    fn keep(&mut self, kept: Kept)
        requires { self.old.cell ≡ Some kept.cell }
        ensures { self.new ≡ record self.old { kept = Some kept } }
    {
        self.kept = Some(kept);
    }
}

/// What is kept of a reply to a read of a cell's key, where it has an answer to keep.
fn kept_of(alloc: Global, cell: u32, reply: &Reply) -> Result<Option<Kept>, NoMemory>
    requires { IsCell cell }
    ensures { IfOk result (λ kept. IsAnswer (answer_in cell reply.now) kept) }
{
    match reply {
        Reply::Script {
            text,
            version: Some(version),
            until,
        } => Ok(Some(Kept {
            cell,
            version: *version,
            until: *until,
            text: text.copy(alloc)?,
        })),
        _ => Ok(None),
    }
}
