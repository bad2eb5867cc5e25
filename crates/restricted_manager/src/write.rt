//! Writes.

ghost use Rattle.std.specs.Prelude.{◌≡◌, option_copied};
ghost use Rattle.restricted_manager.specs.declared.write.WriteRefusal.TheVariants as refusal;
ghost use Rattle.restricted_manager.specs.Writes as spec;

use crate::document::{asked_place, has_own_origin};
use crate::manager::Manager;
use crate::request::context_of;
use canonical_cookie::{CookieRefusal, make};
use jar_types::{Moment, NoMemory, Op};
use public_suffix::Suffixes;
use set_cookie_line::{Line, LineRefusal, read_line};
use site_match::Place;
use std::alloc::Global;
use std::error::Error;
use std::fmt;

/// Why a write asks nothing, in the order in which the causes apply.
#[derive(Clone, Copy, Debug, PartialEq, Eq)]
pub enum WriteRefusal {
    /// The scheme, the host or the port of the URL isn't the document's.
    OriginMismatch,
    /// The line is refused; never for want of memory.
    Line(LineRefusal),
    /// The cookie of the line is refused; never for want of memory.
    Cookie(CookieRefusal),
    /// Memory was wanting.
    NoMemory,
}

impl Manager {
    /// The op that sets the cookie of a line, by a script, at a URL, or at the document where none is
    /// given.
    ///
    /// Refusals, in this order: another origin than the document's; the line's; the cookie's; want
    /// of memory, which may also come where the cookie would be refused.
    /// This jar's own rule: docs/DEFINITIONS.md.
    #[tactic(auto, using(crate::proofs::LineLemmas::reads_without_want))]
    pub fn write_op(
        &self,
        alloc: Global,
        suffixes: &Suffixes,
        url: Option<&Place>,
        line: &str,
        now: Moment,
    ) -> Result<Op, WriteRefusal>
        ensures { spec.WritesCookie suffixes.now self.now (option_copied url.entry) line.now now result }
    {
        if !has_own_origin(&self.document, url) {
            return Err(WriteRefusal::OriginMismatch);
        }
        let place = asked_place(&self.document, url);
        match read_line(alloc, line) {
            Ok(line) => self.set_of(alloc, suffixes, place, &line, now),
            Err(LineRefusal::NoMemory) => Err(WriteRefusal::NoMemory),
            Err(refusal) => Err(WriteRefusal::Line(refusal)),
        }
    }

    /// The op that sets the cookie of a read line at a place, by a script.
    fn set_of(
        &self,
        alloc: Global,
        suffixes: &Suffixes,
        place: &Place,
        line: &Line,
        now: Moment,
    ) -> Result<Op, WriteRefusal>
        ensures { spec.SetsCookie suffixes.now self.now.site place.now line.now now result }
    {
        let context = context_of(alloc, place, &self.site)?;
        match make(alloc, suffixes, line, place, context, true, now) {
            Ok(cookie) => Ok(Op::Set {
                cookie,
                script: true,
                secure: place.scheme.is_secure(),
            }),
            Err(CookieRefusal::NoMemory) => Err(WriteRefusal::NoMemory),
            Err(refusal) => Err(WriteRefusal::Cookie(refusal)),
        }
    }
}

impl fmt::Display for WriteRefusal {
    fn fmt<W: fmt::Write>(&self, f: &mut fmt::Formatter<W>) -> fmt::Result {
        match self {
            WriteRefusal::OriginMismatch => write!(f, "another origin than the document's"),
            WriteRefusal::Line(refusal) => write!(f, "{refusal}"),
            WriteRefusal::Cookie(refusal) => write!(f, "{refusal}"),
            WriteRefusal::NoMemory => write!(f, "out of memory"),
        }
    }
}

impl Error for WriteRefusal {}

impl From<NoMemory> for WriteRefusal {
    ghost from_gives = { λ _ e. e ≡ refusal.NoMemory };

    fn from(_error: NoMemory) -> WriteRefusal {
        WriteRefusal::NoMemory
    }
}
