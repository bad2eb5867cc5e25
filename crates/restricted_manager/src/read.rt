//! Reads.

ghost use Rattle.std.specs.Prelude.{◌≡◌, IfErr, IfOk, MatchResult, option_copied};
ghost use Rattle.restricted_manager.specs.Documents as spec;
ghost use Rattle.restricted_manager.specs.Requests.{read_of};
ghost use Rattle.restricted_manager.specs.declared.read.ReadTurn.TheVariants as turn;
ghost use Rattle.restricted_manager.specs.declared.read.ReadTurnRefusal.TheVariants as refusal;
ghost use Rattle.restricted_manager.specs.Reads.{FindsKept, ReadsAt, ReadsCookies};

use crate::document::{asked_place, has_own_origin, is_own_place};
use crate::manager::Manager;
use crate::request::request_of;
use jar_types::{AskCause, Moment, NoMemory, Op, Text};
use renderer_cache::Reuse;
use site_match::Place;
use std::alloc::Global;
use std::error::Error;
use std::fmt;
use version_cells::{Cells, Pass};

/// How a read goes on.
///
/// This jar's own rule: docs/DEFINITIONS.md.
#[derive(Drop)]
pub enum ReadTurn {
    /// The kept text is the answer.
    Reused(Text),
    /// The jar is asked, for this cause.
    Ask {
        /// What is asked.
        op: Op,
        /// The first cause that holds.
        cause: AskCause,
    },
}

/// Why a read doesn't go on, in the order in which the causes apply.
#[derive(Clone, Copy, Debug, PartialEq, Eq)]
pub enum ReadTurnRefusal {
    /// The scheme, the host or the port of the URL isn't the document's.
    OriginMismatch,
    /// Memory was wanting.
    NoMemory,
}

impl Manager {
    /// How a read of a URL goes on, or of the document where none is given: with a copy of the kept
    /// text, or with what to ask the jar and the first cause to.
    ///
    /// Refusals, in this order: another origin than the document's, and then no look was made; want
    /// of memory, after which the pass may have one look more. One look is made, of the bound cell,
    /// exactly where the read is of the document's URL, something is kept, and `now` is below its
    /// until. This jar's own rule: docs/DEFINITIONS.md.
    pub fn begin_read(
        &self,
        alloc: Global,
        cells: &Cells,
        pass: &mut Pass,
        url: Option<&Place>,
        now: Moment,
    ) -> Result<ReadTurn, ReadTurnRefusal>
        requires same { pass.old.table ≡ cells.now }
        ensures reads { ReadsCookies self.now (option_copied url.entry) now pass.old pass.new result }
        ensures table { pass.new.table ≡ pass.old.table }
    {
        if !has_own_origin(&self.document, url) {
            return Err(ReadTurnRefusal::OriginMismatch);
        }
        match self.find_kept(cells, pass, url, now) {
            Ok(text) => Ok(ReadTurn::Reused(text.copy(alloc)?)),
            Err(cause) => self.ask(alloc, url, cause),
        }
    }

    /// What to ask the jar about the place of a step, for this cause. Only want of memory refuses.
    /// It stands apart so that a read that reuses its text doesn't make room for it.
    #[cold]
    #[inline(never)]
    fn ask(
        &self,
        alloc: Global,
        url: Option<&Place>,
        cause: AskCause,
    ) -> Result<ReadTurn, ReadTurnRefusal>
        ensures asks { IfOk result (λ asked. asked
            ≡ turn.Ask (read_of self.now (spec.asked_place self.now.document (option_copied url.entry))) cause) }
        ensures wants { IfErr result (λ e. e ≡ refusal.NoMemory) }
    {
        let place = asked_place(&self.document, url);
        Ok(ReadTurn::Ask {
            op: Op::Get(request_of(alloc, place, &self.site)?),
            cause,
        })
    }

    /// The text that is kept for the place of a step and may be used again, or the first cause to ask.
    fn find_kept(
        &self,
        cells: &Cells,
        pass: &mut Pass,
        url: Option<&Place>,
        now: Moment,
    ) -> Result<&Text, AskCause>
        requires same { pass.old.table ≡ cells.now }
        ensures finds { MatchResult result
            (λ text. FindsKept self.now (spec.asked_place self.now.document (option_copied url.entry)) now
            pass.old pass.new (Ok text.now))
            (λ cause. FindsKept self.now (spec.asked_place self.now.document (option_copied url.entry)) now
            pass.old pass.new (Err cause)) }
        ensures table { pass.new.table ≡ pass.old.table }
    {
        if !is_own_place(&self.document, url) {
            return Err(AskCause::Other);
        }
        if self.cell.is_none() {
            return Err(AskCause::NoCell);
        }
        let Some(kept) = &self.kept else {
            return Err(AskCause::Cold);
        };
        match kept.try_reuse(cells, pass, now) {
            Reuse::Late => Err(AskCause::Late { until: kept.until }),
            Reuse::Hit(_) => Ok(&kept.text),
            Reuse::Moved { kept, found } => Err(AskCause::Moved { kept, found }),
        }
    }
}

impl fmt::Display for ReadTurnRefusal {
    fn fmt<W: fmt::Write>(&self, f: &mut fmt::Formatter<W>) -> fmt::Result {
        match self {
            ReadTurnRefusal::OriginMismatch => write!(f, "another origin than the document's"),
            ReadTurnRefusal::NoMemory => write!(f, "out of memory"),
        }
    }
}

impl Error for ReadTurnRefusal {}

impl From<NoMemory> for ReadTurnRefusal {
    ghost from_gives = { λ _ e. e ≡ refusal.NoMemory };

    fn from(_error: NoMemory) -> ReadTurnRefusal {
        ReadTurnRefusal::NoMemory
    }
}
