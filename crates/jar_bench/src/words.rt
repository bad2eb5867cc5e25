//! What the words of the command line ask for.

ghost use Rattle.std.specs.Prelude.{◌≤◌, IfSome};
ghost use Rattle.jar_bench.specs.declared.words.TheConstants.{MOST_ROUNDS, MOST_THREADS};

use std::{env, io};

/// How many threads there may be.
pub const MOST_THREADS: u32 = 64;

/// How many rounds each thread may make.
pub const MOST_ROUNDS: u64 = 1_000_000_000;

/// What one round does.
#[derive(Clone, Copy)]
pub enum Task {
    /// It reads the document's cookies, by a reuse of the kept text where that may be.
    Reuse,
    /// It loads a word that all threads share, and copies a text.
    Copy,
}

/// A task, on so many threads, in so many rounds on each.
#[derive(Clone, Copy)]
pub struct Asked {
    pub task: Task,
    pub threads: u32,
    pub rounds: u64,
    ghost some: { 1 ≤ threads },
    ghost few: { threads ≤ MOST_THREADS },
    ghost bounded: { rounds ≤ MOST_ROUNDS },
}

/// What the words of the command line ask for, `None` for other words.
pub fn read_words(rt: &HostRuntime) -> io::Result<Option<Asked>> {
    let mut words = env::args(rt)?.skip(1);
    let (Some(task), Some(threads), Some(rounds), None) = (
        words.next(),
        words.next(),
        words.next(),
        words.next(),
    ) else {
        return Ok(None);
    };
    Ok(asked_of(task.as_str(), threads.as_str(), rounds.as_str()))
}

/// What three words ask for, `None` for other words.
fn asked_of(task: &str, threads: &str, rounds: &str) -> Option<Asked> {
    let task = task_of(task)?;
    let threads = number(threads, MOST_THREADS as u64)?;
    let rounds = number(rounds, MOST_ROUNDS)?;
    Some(Asked {
        task,
        threads: threads as u32,
        rounds,
    })
}

/// The task of a word, `None` for another word.
fn task_of(word: &str) -> Option<Task> {
    match word {
        "reuse" => Some(Task::Reuse),
        "copy" => Some(Task::Copy),
        _ => None,
    }
}

/// The number that this word writes, if it is from 1 to `most`.
fn number(word: &str, most: u64) -> Option<u64>
    ensures { IfSome result (λ number. (1 ≤ number) × (number ≤ most)) }
{
    match word.parse::<u64>() {
        Ok(number) if number >= 1 && number <= most => Some(number),
        _ => None,
    }
}
