//! The program, over a source and a sink.

ghost use Rattle.std.specs.Prelude.{◌≡◌, ◌≢◌, [], true, false, map, IfOk, IfErr};
ghost use Rattle.script_run.specs.Answers.{told_of};
ghost use Rattle.script_run.specs.declared.status.TheConstants.{OTHER_WORDS, READ_FAULT, NO_MEMORY};
ghost use Rattle.script_run.specs.declared.tool.Failure.TheVariants as failure;
ghost use Rattle.script_run.specs.Tool as spec;
ghost use Rattle.script_run.specs.Words.{runs_serial as are_of_serial};

use crate::answer::{Answer, NoAnswer, answer_of, too_large};
use crate::status::{NO_MEMORY, OTHER_WORDS, READ_FAULT, WRITE_FAULT};
use crate::words::runs_serial;
use jar_edge::{ReadRefusal, Sink, Source, read_whole, write_all};
use jar_keeper::Keeper;
use jar_types::Journal;
use std::alloc::Global;

/// The most bytes of an input.
///
/// This jar's own rule: docs/DEFINITIONS.md.
pub const MOST_INPUT: usize = 16_777_216;

/// What is written for words that the program doesn't take.
const USAGE: &str = "usage: cookiejar run|serial [--store FILE] | check | sample N\n";

/// What the program did: the status of the process, the keeper, and the journal of what was run,
/// which is empty where nothing was.
#[derive(Drop)]
pub struct Outcome<K: Keeper + Drop> {
    pub status: u8,
    pub keeper: K,
    pub journal: Journal,
}

/// Runs the program for its words: `serial`, with a store or without one, reads a script from the
/// source, runs it over the keeper and writes its report to the sink. The input is just what the
/// source's reads gave, up to the end. The store's file is for the caller to open: [`store_path`]
/// gives it.
///
/// The status is the one of the process:
/// - 2 where the words aren't `serial`, `serial --store FILE` or `serial --store=FILE`; neither
///   source nor keeper is called then;
/// - 4 where the source's count of faults rose: it gave no byte past [`MOST_INPUT`], nothing is
///   written and the keeper isn't called;
/// - 3 where the input is refused, and the line that names the refusal is written; the keeper isn't
///   called;
/// - 7 where memory was wanting: the source gave one byte past [`MOST_INPUT`] at most, and nothing
///   is written;
/// - 5 where the sink's count of faults rose: its writes took some first bytes of what is due, and
///   not all;
/// - 6 where the keeper's count of faults rose: the report is written, in which each fault has its
///   entry, or the line of a keeper that failed at its hosts;
/// - 0 else, and the report is written.
///
/// It waits for nobody, and returns wherever its source, sink and keeper do. This jar's own rule:
/// docs/DEFINITIONS.md.
pub fn serial_tool<S: Source, O: Sink, K: Keeper + Drop>(
    alloc: Global,
    words: &[&str],
    source: &mut S,
    sink: &mut O,
    keeper: K,
) -> Outcome<K>
    // Other words: the usage line, whatever the input.
    ensures unread { are_of_serial (map (λ word. word.now) words.now) ≡ false
        → (source.new ≡ source.old) × (result.keeper ≡ keeper) × (result.journal.list ≡ []) }
    ensures usage { are_of_serial (map (λ word. word.now) words.now) ≡ false
        → spec.Writes OTHER_WORDS spec.usage_text result.status (O.told sink.old) (O.told sink.new) }

    // `serial`: what is due for the input, which was read without a fault.
    ensures answers { are_of_serial (map (λ word. word.now) words.now) ≡ true
        → result.status ≢ READ_FAULT → result.status ≢ NO_MEMORY
        → spec.Answers (told_of (K.tells keeper) (K.undisturbed keeper) (K.faults keeper))
        (told_of (K.tells result.keeper) (K.undisturbed result.keeper) (K.faults result.keeper))
        (record { source = S.told source.old; sink = O.told sink.old })
        (record { source = S.told source.new; sink = O.told sink.new }) result.journal.list result.status }

    // `serial`: a fault of the source, or want of memory, and how many bytes the source gave.
    ensures read_fault { are_of_serial (map (λ word. word.now) words.now) ≡ true
        → result.status ≡ READ_FAULT → (sink.new ≡ sink.old) × (result.keeper ≡ keeper) × (result.journal.list ≡ [])
        × spec.Fails (S.told source.old) (S.told source.new) failure.ReadFault }
    ensures memory { are_of_serial (map (λ word. word.now) words.now) ≡ true
        → result.status ≡ NO_MEMORY → (sink.new ≡ sink.old)
        × spec.Fails (S.told source.old) (S.told source.new) failure.NoMemory }
{
    if !runs_serial(words) {
        return Outcome {
            status: write(sink, USAGE.as_bytes(), OTHER_WORDS),
            keeper,
            journal: Journal::new(alloc),
        };
    }
    match answer_input(alloc, source, keeper) {
        Ok(answer) => Outcome {
            status: write(sink, answer.text.as_slice(), answer.status),
            keeper: answer.keeper,
            journal: answer.journal,
        },
        Err(unanswered) => Outcome {
            status: status_of(unanswered.failure),
            keeper: unanswered.keeper,
            journal: unanswered.journal,
        },
    }
}

/// Writes a text, and answers the status that is due, or [`WRITE_FAULT`] where a write failed.
fn write<O: Sink>(sink: &mut O, text: &[u8], due: u8) -> u8
    ensures { spec.Writes due text.now result (O.told sink.old) (O.told sink.new) }
{
    match write_all(sink, text) {
        Ok(()) => due,
        Err(_) => WRITE_FAULT,
    }
}

/// Why an input has no answer.
#[derive(Clone, Copy)]
pub enum Failure {
    /// A read failed.
    ReadFault,
    /// Memory was wanting.
    NoMemory,
}

/// The status of an input without an answer.
fn status_of(failure: Failure) -> u8
    ensures { result ≡ spec.failure_status failure }
{
    match failure {
        Failure::ReadFault => READ_FAULT,
        Failure::NoMemory => NO_MEMORY,
    }
}

/// An input without an answer: why, the keeper, and the journal of what was run.
#[derive(Drop)]
struct Unanswered<K: Keeper + Drop> {
    failure: Failure,
    keeper: K,
    journal: Journal,
}

impl<K: Keeper + Drop> Unanswered<K> {
    /// Nothing was run.
    fn unrun(alloc: Global, failure: Failure, keeper: K) -> Unanswered<K>
        ensures failure { result.failure ≡ failure }
        ensures keeper { result.keeper ≡ keeper }
        ensures journal { result.journal.list ≡ [] }
    {
        Unanswered {
            failure,
            keeper,
            journal: Journal::new(alloc),
        }
    }
}

impl<K: Keeper + Drop> From<NoAnswer<K>> for Unanswered<K> {
    ghost use Rattle.std.specs.Prelude.{◌≡◌};
    ghost use Rattle.script_run.specs.declared.tool.Failure.TheVariants.{NoMemory as WantOfMemory};

    ghost from_gives = { λ _ unanswered. unanswered.failure ≡ WantOfMemory };

    fn from(lacks: NoAnswer<K>) -> Unanswered<K> {
        Unanswered {
            failure: Failure::NoMemory,
            keeper: lacks.keeper,
            journal: lacks.journal,
        }
    }
}

/// Reads the input, and makes the answer that is due.
///
/// Refuses a read that failed, then want of memory.
fn answer_input<S: Source, K: Keeper + Drop>(
    alloc: Global,
    source: &mut S,
    keeper: K,
) -> Result<Answer<K>, Unanswered<K>>
    ensures due { IfOk result (λ a. spec.IsDueFor (told_of (K.tells keeper) (K.undisturbed keeper) (K.faults keeper))
        (told_of (K.tells a.keeper) (K.undisturbed a.keeper) (K.faults a.keeper))
        (S.told source.old) (S.told source.new) a.journal.list a.status a.text.items) }
    ensures fails { IfErr result (λ u. spec.Fails (S.told source.old) (S.told source.new) u.failure) }
    ensures unrun { IfErr result (λ u. u.failure ≡ failure.ReadFault
        → (u.keeper ≡ keeper) × (u.journal.list ≡ [])) }
{
    match read_whole(alloc, source, MOST_INPUT) {
        Ok(bytes) => Ok(answer_of(alloc, bytes.as_slice(), keeper)?),
        Err(ReadRefusal::TooLarge) => Ok(too_large(alloc, keeper)?),
        Err(ReadRefusal::ReadFault) => { Err(Unanswered::unrun(alloc, Failure::ReadFault, keeper)) }
        Err(ReadRefusal::NoMemory) => Err(Unanswered::unrun(alloc, Failure::NoMemory, keeper)),
    }
}
