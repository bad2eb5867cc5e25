//! Committing an entry.

ghost use Rattle.std.specs.Prelude.{◌≡◌};
ghost use Rattle.version_cells.specs.Moves.{MayCommit};
ghost use Rattle.version_cells.specs.Standing.{baton_with_listing, listing_of};

use crate::baton::Baton;
use crate::cells::Cells;
use crate::view::View;
use atomic_table::Play;
use jar_types::Entry;
use std::marker::{Brand, PhantomData};

impl Cells {
    /// Commits an entry that moves the pending cells, which are `moved`, for this owner.
    ///
    /// An owner is the number of the permit that the baton holds.
    /// This jar's own rule: docs/DEFINITIONS.md.
    pub fn commit(&self, baton: &mut Baton, owner: Option<u32>, moved: &[u32], entry: &Entry)
        requires same { baton.old.table ≡ self.now }
        requires may { MayCommit baton.old.view (listing_of moved.now owner entry.now) }
        ensures { baton.new ≡ baton_with_listing baton.old (listing_of moved.now owner entry.now) }
    {
        self.commit_as::<Brand>(baton, owner, moved, entry);
    }

    /// Commits the listing that `L` names, which is that of these cells, owner and entry.
    fn commit_as<L: Committed>(
        &self,
        baton: &mut Baton,
        owner: Option<u32>,
        moved: &[u32],
        entry: &Entry,
    )
        requires same { baton.old.table ≡ self.now }
        requires may { MayCommit baton.old.view (listing_of moved.now owner entry.now) }
        requires named { L.listing ≡ listing_of moved.now owner entry.now }
        ensures { baton.new ≡ baton_with_listing baton.old (listing_of moved.now owner entry.now) }
    {
        self.table
            .shared
            .fetch_add::<Commits<L>>(&mut baton.seat, 0, 1);
    }
}

/// Names the listing of one commit, which its step cannot see in a number.
pub trait Committed {
    ghost use Rattle.version_cells.specs.declared.listing.Listing.{Listing};

    ghost listing: { Listing };
}

// What stands here is not used: whoever calls a function with `Brand` picks the listing in its
// proof.
impl Committed for Brand {
    ghost use Rattle.version_cells.specs.Listings.{no_listing};

    ghost listing = { no_listing };
}

/// The baton adds one to the number of entries, for the listing that `L` names.
pub struct Commits<L: Committed>(PhantomData<L>);

impl<L: Committed> Play<u8, View> for Commits<L> {
    ghost use Rattle.std.specs.Prelude.{◌≡◌, []};
    ghost use Rattle.version_cells.specs.Moves.{after_commit};

    ghost then = { λ _ me _ after. after ≡ (after_commit me.0 L.listing, []) };
}
