//! The answer to an input: a status, the text that is written, the keeper and the journal.

ghost use Rattle.std.specs.Prelude.{◌≡◌, IfOk};
ghost use Rattle.std.specs.List.{list_any};
ghost use Rattle.run_report.specs.Reports.{report_text};
ghost use Rattle.script_text.specs.Admitted.{IsAdmitted};
ghost use Rattle.script_run.specs.Answers as spec;
ghost use Rattle.shared_jar.specs.Faults as faults;
ghost use Rattle.script_run.specs.declared.rounds.RunRefusal.TheVariants.{StoreFault};

use crate::refusal_line::{refusal_line, store_fault_line};
use crate::rounds::{Ran, RunFail, RunRefusal, serial};
use crate::status::{DONE, REFUSED, STORE_FAULT};
use jar_keeper::Keeper;
use jar_types::{Entry, Journal, NoMemory, Own, Text};
use run_report::print;
use script_text::{Refusal, Refused, Script, ScriptRefusal};
use std::alloc::Global;

/// An answer to an input: the status that is due and the text, the keeper, and the journal of what
/// was run.
#[derive(Drop)]
pub struct Answer<K: Keeper + Drop> {
    pub status: u8,
    pub text: Vec<u8>,
    pub keeper: K,
    pub journal: Journal,
}

/// No answer, since memory was wanting: the keeper, and the journal of what was run.
#[derive(Drop)]
pub struct NoAnswer<K: Keeper + Drop> {
    pub keeper: K,
    pub journal: Journal,
}

impl<K: Keeper + Drop> NoAnswer<K> {
    /// Nothing was run.
    fn unrun(alloc: Global, keeper: K) -> NoAnswer<K>
        ensures { result.keeper ≡ keeper }
    {
        NoAnswer {
            keeper,
            journal: Journal::new(alloc),
        }
    }
}

/// The answer to an input that was read whole, over a keeper of rows.
///
/// A script has status [`DONE`] and its report, or [`STORE_FAULT`] where the keeper failed, and
/// another input [`REFUSED`] and the line of its refusal. Only want of memory refuses. This jar's own
/// rule: docs/DEFINITIONS.md.
pub fn answer_of<K: Keeper + Drop>(
    alloc: Global,
    bytes: &[u8],
    keeper: K,
) -> Result<Answer<K>, NoAnswer<K>>
    ensures due { IfOk result (λ a. spec.IsDue (spec.told_of (K.tells keeper) (K.undisturbed keeper) (K.faults keeper))
        (spec.told_of (K.tells a.keeper) (K.undisturbed a.keeper) (K.faults a.keeper))
        bytes.now a.journal.list a.status a.text.items) }
{
    match Script::read(alloc, bytes) {
        Ok(script) => run_answer(alloc, &script, keeper),
        Err(ScriptRefusal::Refused(refused)) => refusal_answer(alloc, &refused, keeper),
        Err(ScriptRefusal::NoMemory) => Err(NoAnswer::unrun(alloc, keeper)),
    }
}

/// The answer to an input that is too large.
pub fn too_large<K: Keeper + Drop>(alloc: Global, keeper: K) -> Result<Answer<K>, NoAnswer<K>>
    ensures refusal { IfOk result (λ a. spec.IsTooLarge a.journal.list a.status a.text.items) }
    ensures keeper { IfOk result (λ a. a.keeper ≡ keeper) }
{
    let Ok(path) = Text::of(alloc, "") else {
        return Err(NoAnswer::unrun(alloc, keeper));
    };
    let refused = Refused {
        name: Refusal::TooLarge,
        path,
    };
    refusal_answer(alloc, &refused, keeper)
}

/// The answer to a script.
fn run_answer<K: Keeper + Drop>(
    alloc: Global,
    script: &Script,
    keeper: K,
) -> Result<Answer<K>, NoAnswer<K>>
    requires { IsAdmitted script.now }
    ensures { IfOk result (λ a. spec.IsRun (spec.told_of (K.tells keeper) (K.undisturbed keeper) (K.faults keeper))
        (spec.told_of (K.tells a.keeper) (K.undisturbed a.keeper) (K.faults a.keeper))
        script.entry.now a.journal.list a.status a.text.items) }
{
    match serial(alloc, script, keeper) {
        Ok(ran) => report_answer(alloc, ran),
        Err(fail) => fault_answer(alloc, fail),
    }
}

/// The answer to a script that has a report.
fn report_answer<K: Keeper + Drop>(alloc: Global, ran: Ran<K>) -> Result<Answer<K>, NoAnswer<K>>
    ensures keeper { IfOk result (λ a. a.keeper ≡ ran.keeper) }
    ensures journal { IfOk result (λ a. a.journal.list ≡ ran.report.journal.list) }
    ensures status { IfOk result (λ a. a.status ≡ spec.status_of ran.report.journal.list) }
    ensures text { IfOk result (λ a. a.text.items
        ≡ report_text ran.report.hosts ran.report.items ran.report.journal.list) }
{
    let Ran { report, keeper } = ran;
    let status = status_of(&report.journal);
    let text = print(alloc, &report);
    let journal = report.journal;
    match text {
        Ok(text) => Ok(Answer {
            status,
            text,
            keeper,
            journal,
        }),
        Err(NoMemory) => Err(NoAnswer { keeper, journal }),
    }
}

/// The status of a report with this journal.
#[tactic(auto, using(crate::proofs::FaultLemmas::status_by_any))]
fn status_of(journal: &Journal) -> u8
    ensures { result ≡ spec.status_of journal.now.list }
{
    if has_fault(journal) {
        STORE_FAULT
    } else {
        DONE
    }
}

/// Whether an entry of the journal tells of a fault of the keeper.
fn has_fault(journal: &Journal) -> bool
    ensures { result ≡ list_any faults.is_fault journal.now.list }
{
    journal.as_slice().iter().any(is_fault)
}

/// Whether an entry tells of a fault of the keeper.
fn is_fault(entry: &Entry) -> bool
    ensures { result ≡ faults.is_fault entry.now }
{
    match entry {
        Entry::Jar(Own::Lost(_) | Own::CommitLost(_)) => true,
        Entry::Jar(_) | Entry::Call { .. } => false,
    }
}

/// The answer to a script that has no report.
fn fault_answer<K: Keeper + Drop>(alloc: Global, fail: RunFail<K>) -> Result<Answer<K>, NoAnswer<K>>
    ensures keeper { IfOk result (λ a. a.keeper ≡ fail.keeper) }
    ensures refusal { IfOk result (λ a. fail.refusal ≡ StoreFault) }
    ensures journal { IfOk result (λ a. a.journal.list ≡ fail.journal.list) }
    ensures line { IfOk result (λ a. spec.IsStoreFault a.status a.text.items) }
{
    let keeper = fail.keeper;
    let journal = fail.journal;
    match (fail.refusal, store_fault_line(alloc)) {
        (RunRefusal::StoreFault, Ok(text)) => Ok(Answer {
            status: STORE_FAULT,
            text,
            keeper,
            journal,
        }),
        _ => Err(NoAnswer { keeper, journal }),
    }
}

/// The answer to a refused input.
fn refusal_answer<K: Keeper + Drop>(
    alloc: Global,
    refused: &Refused,
    keeper: K,
) -> Result<Answer<K>, NoAnswer<K>>
    ensures refusal { IfOk result (λ a. spec.IsRefusal refused.entry.now a.journal.list a.status a.text.items) }
    ensures keeper { IfOk result (λ a. a.keeper ≡ keeper) }
{
    match refusal_line(alloc, refused) {
        Ok(text) => Ok(Answer {
            status: REFUSED,
            text,
            keeper,
            journal: Journal::new(alloc),
        }),
        Err(NoMemory) => Err(NoAnswer::unrun(alloc, keeper)),
    }
}
