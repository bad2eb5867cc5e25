//! Batches of changed rows: what is to be committed, and the batch that is out.

ghost use Rattle.std.specs.Prelude.{◌≡◌, IfOk, OnOk, None};
ghost use Rattle.std.specs.List.Sorted.{IsStrictlySortedBy};
ghost use Rattle.jar_types.specs.Batches as spec;
ghost use Rattle.jar_types.specs.RowChanges.{change_cmp};

use crate::touched::Touched;
use jar_types::{NoMemory, Own, RowChange};
use std::alloc::Global;
use std::marker::Model;

/// The ids whose stored row changed since the last batch was taken, the place of the batch that is out, and whether the
/// last one that was out was lost.
#[derive(Drop)]
pub struct Batches {
    touched: Touched,
    out: Option<u64>,
    lost: bool,
}

impl Model for Batches {
    ghost use Rattle.jar_types.specs.Batches.{Batches};

    ghost Value = { Batches };

    ghost view = { λ b. record { touched = b.touched; out = b.out; lost = b.lost } };
}

impl Batches {
    /// Nothing was touched or taken.
    pub fn new(alloc: Global) -> Batches
        ensures { result ≡ spec.no_batch }
    {
        Batches {
            touched: Touched::new(alloc),
            out: None,
            lost: false,
        }
    }

    /// The same again.
    pub fn copy(&self, alloc: Global) -> Result<Batches, NoMemory>
        ensures { IfOk result (λ batches. batches ≡ self.now) }
    {
        Ok(Batches {
            touched: self.touched.copy(alloc)?,
            out: self.out,
            lost: self.lost,
        })
    }

    /// Whether the batches let the jar do this itself.
    ///
    /// This jar's own rule: docs/DEFINITIONS.md.
    pub fn may(&self, own: &Own) -> bool
        ensures { result ≡ spec.may_commit own.now self.now }
    {
        match own {
            Own::Taken => self.out.is_none() && (!self.touched.is_empty() || self.lost),
            Own::Acked(place) | Own::CommitLost(place) => is_out(*place, self.out),
            Own::Want(_)
            | Own::WantAll
            | Own::Begun(_)
            | Own::Loaded { .. }
            | Own::Lost(_)
            | Own::Whole(_) => true,
        }
    }

    /// Takes the step of what the jar does itself, as the entry of a place. It takes no memory.
    ///
    /// This jar's own rule: docs/DEFINITIONS.md.
    pub fn step(&mut self, place: u64, own: &Own)
        ensures { self.new ≡ spec.own_batches place own.now self.old }
    {
        match own {
            Own::Taken => self.take(place),
            Own::Acked(_) => self.end(false),
            Own::CommitLost(_) => self.end(true),
            Own::Want(_)
            | Own::WantAll
            | Own::Begun(_)
            | Own::Loaded { .. }
            | Own::Lost(_)
            | Own::Whole(_) => {}
        }
    }

    /// The batch of what was touched goes out, as the entry of a place.
    fn take(&mut self, place: u64)
        ensures { self.new ≡ spec.own_batches place Own.Taken self.old }
    {
        self.touched.clear();
        self.out = Some(place);
    }

    /// The batch that is out was committed, or lost.
    fn end(&mut self, lost: bool)
        ensures { self.new ≡ record self.old { out = None; lost = lost } }
    {
        self.out = None;
        self.lost = lost;
    }

    /// These rows changed.
    pub fn touch(&mut self, alloc: Global, changes: &[RowChange]) -> Result<(), NoMemory>
        requires { IsStrictlySortedBy change_cmp changes.now }
        ensures { OnOk result (self.new ≡ spec.touching changes.now self.old) }
    {
        if !changes.is_empty() {
            self.touched = self.touched.with(alloc, changes)?;
        }
        Ok(())
    }
}

/// Whether the batch that is out was taken at a place.
fn is_out(place: u64, out: Option<u64>) -> bool
    ensures { result ≡ spec.is_out place out }
{
    match out {
        Some(taken) => taken == place,
        None => false,
    }
}
