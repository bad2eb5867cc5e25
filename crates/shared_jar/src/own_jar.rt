//! A jar, its vault and its words, on one thread.

ghost use Rattle.std.specs.Prelude.{◌≡◌, ◌≤◌, List, true, IfOk, IfErr};
ghost use Rattle.jar_types.specs.Journals.{is_well_keyed};
ghost use Rattle.locked_jar.specs.Calls.{Answers, RefusesCall};
ghost use Rattle.locked_jar.specs.History.{Lists-prop};
ghost use Rattle.shared_jar.specs.Faults.{CountsFaults};
ghost use Rattle.shared_jar.specs.Holding.{IsBeside, StaysBeside, StaysOver};
ghost use Rattle.shared_jar.specs.Ending.{HasEnded};
ghost use Rattle.shared_jar.specs.Together.{IsCaller, IsJar};
ghost use Rattle.shared_jar.specs.Versions.{VersionsAreTurns};
ghost use Rattle.std.proofs.Props.{props};
ghost use Rattle.jar_types.specs.declared.row.Row.{Row as RowData};
ghost use Rattle.locked_jar.specs.Owns.{is_batch_due};
ghost use Rattle.locked_jar.specs.Passes.{HasSeen};
ghost use Rattle.store_vault.specs.Flushing.{CountsFlush, FlushLeaves, FlushTells, IsFlush, batch_of};
ghost use Rattle.store_vault.specs.Loading.{CountsLoad, IsLoad, IsLoadOver, rules_of};
ghost use Rattle.store_vault.specs.Looking.{HasLooked};
ghost use Rattle.version_cells.specs.Listings.{IsCell, turns};
ghost use Rattle.version_cells.specs.Moves.{after_look};
ghost use Rattle.version_cells.specs.Standing.{pass_with_view};

use jar_keeper::Keeper;
use jar_types::{JarCore, Moment, Op};
use locked_jar::{CallRefusal, Locked, Receipt};
use std::alloc::Global;
use store_vault::{FlushRefusal, LoadRefusal, LoadStep, Vault};
use version_cells::{Cells, Pass};

/// A jar on one thread: what lies under its lock, the vault, the words, and how many callers it was opened for.
///
/// Its journal is legal, its state is the journal's, and no batch is out. This jar's own rule: docs/DEFINITIONS.md.
#[derive(Drop)]
pub struct OwnJar<C: JarCore + Drop, K: Keeper + Drop> {
    pub locked: Locked<C>,
    pub vault: Vault<K>,
    pub cells: Cells,
    pub callers: u32,
    pub ghost is: { IsJar (rules_of vault.stored callers locked.jar.limit) cells locked.jar vault.cutter vault.owns } by { Prim.hlevel (props, Lists-prop) },
    pub ghost ended: { HasEnded locked.jar vault.acked } by { Prim.hlevel props },
}

impl<C: JarCore + Drop, K: Keeper + Drop> OwnJar<C, K> {
    /// Adds one entry of the pass's caller, who is told its place and its reply. The pass's front is then the journal.
    ///
    /// It is refused as `Spent` exactly where callers have as many entries as they may; then as `Pending` or `NotYet`
    /// exactly where the op waits so, and what is pending is wanted then; then for want of memory. A refusal leaves the
    /// pass's front and calls. This jar's own rule: docs/DEFINITIONS.md.
    pub fn call(
        &mut self,
        alloc: Global,
        pass: &mut Pass,
        op: &Op,
        now: Moment,
    ) -> Result<Receipt, CallRefusal>
        requires pass { IsCaller (rules_of self.old.vault.stored self.old.callers self.old.locked.jar.limit)
            self.old.cells pass.old }
        requires keyed { is_well_keyed (rules_of self.old.vault.stored self.old.callers self.old.locked.jar.limit)
            op.now ≡ true }

        ensures answered { IfOk result
            (Answers self.old.locked.jar self.new.locked.jar pass.old pass.new op.now now) }
        ensures refused { IfErr result
            (RefusesCall self.old.locked.jar self.new.locked.jar pass.old pass.new op.now) }

        ensures pass { IsCaller (rules_of self.old.vault.stored self.old.callers self.old.locked.jar.limit)
            self.old.cells pass.new }
        ensures same { (self.new.vault ≡ self.old.vault) × (self.new.cells ≡ self.old.cells)
            × (self.new.callers ≡ self.old.callers) × (self.new.locked.jar.limit ≡ self.old.locked.jar.limit) }

        // What waits still waits beside the journal; the keeper still tells what is held beside it; and
        // it tells of its faults.
        ensures beside { StaysBeside
            (rules_of self.old.vault.stored self.old.callers self.old.locked.jar.limit)
            (rules_of self.new.vault.stored self.new.callers self.new.locked.jar.limit)
            self.old.locked.jar self.new.locked.jar self.old.vault.kept self.new.vault.kept
            self.old.vault.acked self.new.vault.acked }
        ensures held { StaysOver
            (rules_of self.old.vault.stored self.old.callers self.old.locked.jar.limit)
            self.old.locked.jar self.new.locked.jar
            (K.tells self.old.vault.keeper) (K.tells self.new.vault.keeper) }
        ensures faults { CountsFaults self.old.locked.jar self.new.locked.jar
            (K.faults self.old.vault.keeper) (K.faults self.new.vault.keeper)
            self.old.vault.starved self.new.vault.starved }
    {
        self.locked.is_counted();
        self.locked.call(alloc, &self.cells, pass, op, now)
    }

    /// One key is loaded, host after host, or the jar becomes whole at its start.
    ///
    /// `Idle` exactly where nothing is left to load. It is refused as `Spent` exactly where something is, and loads and
    /// commits have as many entries as they may; then as `StoreFault` exactly where the keeper's count rose and a Lost
    /// tells so; then for want of memory, where a Begun may stand. This jar's own rule: docs/DEFINITIONS.md.
    pub fn load_next(&mut self, alloc: Global) -> Result<LoadStep, LoadRefusal>
        ensures load { IsLoad self.old.vault.stored self.old.vault.owns self.old.locked.jar self.new.locked.jar
            self.old.vault.cutter self.new.vault.cutter result }
        ensures over { K.undisturbed self.new.vault.keeper → (held : List RowData)
            → K.tells self.old.vault.keeper held
            → IsLoadOver (rules_of self.old.vault.stored 0 0) held self.old.locked.jar self.new.locked.jar
            self.old.vault.cutter result }

        ensures looked { HasLooked (K.tells self.old.vault.keeper) (K.tells self.new.vault.keeper)
            (K.leaves self.old.vault.keeper) (K.leaves self.new.vault.keeper)
            (K.undisturbed self.old.vault.keeper) (K.undisturbed self.new.vault.keeper) }
        ensures count { CountsLoad (K.faults self.old.vault.keeper) (K.faults self.new.vault.keeper)
            self.old.vault.starved self.new.vault.starved result }

        ensures same { (self.new.vault.stored ≡ self.old.vault.stored) × (self.new.vault.kept ≡ self.old.vault.kept)
            × (self.new.vault.acked ≡ self.old.vault.acked) × (self.new.cells ≡ self.old.cells)
            × (self.new.callers ≡ self.old.callers)
            × (self.new.locked.jar.limit ≡ self.old.locked.jar.limit) }

        // What waits still waits beside the journal; the keeper still tells what is held beside it; and
        // it tells of its faults.
        ensures beside { StaysBeside
            (rules_of self.old.vault.stored self.old.callers self.old.locked.jar.limit)
            (rules_of self.new.vault.stored self.new.callers self.new.locked.jar.limit)
            self.old.locked.jar self.new.locked.jar self.old.vault.kept self.new.vault.kept
            self.old.vault.acked self.new.vault.acked }
        ensures held { K.undisturbed self.new.vault.keeper → StaysOver
            (rules_of self.old.vault.stored self.old.callers self.old.locked.jar.limit)
            self.old.locked.jar self.new.locked.jar
            (K.tells self.old.vault.keeper) (K.tells self.new.vault.keeper) }
        ensures faults { CountsFaults self.old.locked.jar self.new.locked.jar
            (K.faults self.old.vault.keeper) (K.faults self.new.vault.keeper)
            self.old.vault.starved self.new.vault.starved }
    {
        self.locked.is_counted();
        self.vault.load_next(alloc, &self.cells, &mut self.locked)
    }

    /// The changed rows are committed, where a batch is due: with force where a row changed or the last batch was lost,
    /// and else where enough rows changed too. The answer is the place of the last batch that was committed, counted
    /// from 1, and 0 for none.
    ///
    /// Where a batch is due, it is refused as `Spent` exactly where loads and commits have as many entries as they may;
    /// then as `StoreFault` exactly where the keeper's count rose; then for want of memory: where a batch was taken the
    /// jar is starved from then on. A batch that was taken and refused is lost, and its changes are kept for the next.
    /// This jar's own rule: docs/DEFINITIONS.md.
    pub fn flush(&mut self, alloc: Global, force: bool) -> Result<u64, FlushRefusal>
        ensures flush { IsFlush force self.old.vault.owns self.old.locked.jar self.new.locked.jar
            self.old.vault.cutter self.new.vault.cutter
            (record { changes = self.old.vault.kept; acked = self.old.vault.acked })
            (record { changes = self.new.vault.kept; acked = self.new.vault.acked }) result }
        ensures never_back { IsBeside
            (rules_of self.old.vault.stored self.old.callers self.old.locked.jar.limit)
            self.old.locked.jar self.old.vault.kept self.old.vault.acked
            → self.old.vault.acked ≤ self.new.vault.acked }
        ensures told { FlushTells (is_batch_due force self.old.locked.jar.state)
            (batch_of (record { changes = self.old.vault.kept; acked = self.old.vault.acked }) self.old.locked.jar)
            (K.tells self.old.vault.keeper) (K.tells self.new.vault.keeper) result }

        ensures since { K.undisturbed self.new.vault.keeper → K.undisturbed self.old.vault.keeper
            × FlushLeaves (is_batch_due force self.old.locked.jar.state)
            (batch_of (record { changes = self.old.vault.kept; acked = self.old.vault.acked }) self.old.locked.jar)
            (K.tells self.old.vault.keeper) (K.leaves self.old.vault.keeper) (K.leaves self.new.vault.keeper) result }
        ensures count { CountsFlush (K.faults self.old.vault.keeper) (K.faults self.new.vault.keeper)
            self.old.vault.cutter.view.calls self.new.vault.cutter.view.calls
            self.old.vault.starved self.new.vault.starved result }

        ensures same { (self.new.vault.stored ≡ self.old.vault.stored)
            × (self.new.cells ≡ self.old.cells) × (self.new.callers ≡ self.old.callers)
            × (self.new.locked.jar.limit ≡ self.old.locked.jar.limit) }

        // What waits still waits beside the journal; where it did, the keeper still tells what is held
        // beside it; and it tells of its faults.
        ensures beside { StaysBeside
            (rules_of self.old.vault.stored self.old.callers self.old.locked.jar.limit)
            (rules_of self.new.vault.stored self.new.callers self.new.locked.jar.limit)
            self.old.locked.jar self.new.locked.jar self.old.vault.kept self.new.vault.kept
            self.old.vault.acked self.new.vault.acked }
        ensures held { IsBeside
            (rules_of self.old.vault.stored self.old.callers self.old.locked.jar.limit)
            self.old.locked.jar self.old.vault.kept self.old.vault.acked → StaysOver
            (rules_of self.old.vault.stored self.old.callers self.old.locked.jar.limit)
            self.old.locked.jar self.new.locked.jar
            (K.tells self.old.vault.keeper) (K.tells self.new.vault.keeper) }
        ensures faults { CountsFaults self.old.locked.jar self.new.locked.jar
            (K.faults self.old.vault.keeper) (K.faults self.new.vault.keeper)
            self.old.vault.starved self.new.vault.starved }
    {
        self.locked.is_counted();
        self.vault
            .flush(alloc, &self.cells, &mut self.locked, force)
    }

    /// Shows a pass all that stands in the journal, without a look. It takes no memory.
    ///
    /// What a cell's word then counts is the version that the jar's state tells of it. This jar's own
    /// rule: docs/DEFINITIONS.md.
    pub fn meet(&mut self, pass: &mut Pass)
        requires pass { IsCaller
            (rules_of self.old.vault.stored self.old.callers self.old.locked.jar.limit)
            self.old.cells pass.old }

        ensures pass { IsCaller
            (rules_of self.old.vault.stored self.old.callers self.old.locked.jar.limit)
            self.old.cells pass.new }
        ensures seen { HasSeen self.old.locked.jar.seen pass.old pass.new }
        ensures versions { VersionsAreTurns self.old.locked.jar }
        ensures same { (self.new.locked.jar ≡ self.old.locked.jar)
            × (self.new.vault ≡ self.old.vault) × (self.new.cells ≡ self.old.cells)
            × (self.new.callers ≡ self.old.callers) }
    {
        self.locked.meet(&self.cells, pass);
    }

    /// Reads the version of a cell, by one load, which the pass notes. It takes no memory.
    pub fn look(&self, pass: &mut Pass, cell: u32) -> u64
        requires same { pass.old.table ≡ self.now.cells }
        requires cell { IsCell cell }
        ensures noted { pass.new ≡ pass_with_view pass.old (after_look pass.old.view cell result) }
        ensures never_back { turns cell pass.old.view.own.seen ≤ result }
    {
        self.cells.look(pass, cell)
    }

    /// The words. It takes no memory.
    pub fn cells(&self) -> &Cells
        ensures { result.now ≡ self.now.cells }
    {
        &self.cells
    }

    /// Whether the keeper was used without an entry that tells of it, since memory was wanting. It takes no memory.
    pub fn starved(&self) -> bool
        ensures { result ≡ self.now.vault.starved }
    {
        self.vault.starved
    }
}
