//! The program `cookiejar`: its words, standard input and standard output, and the file of its
//! store, handed to the proved tool.
#![tactic(auto)]

use jar_edge::{StdSink, StdSource};
use jar_keeper::{Keeper, MemKeeper};
use jar_types::Rows;
use script_run::{Outcome, serial_tool, store_path};
use sqlite::{Connection, Error, ErrorCode};
use sqlite_keeper::{OverRefusal, SqliteKeeper};
use std::alloc::{AllocError, Global};
use std::process::ExitCode;
use std::{env, io};

/// The status of a store that can't be used.
const STORE_FAULT: u8 = 6;

/// The status of want of memory.
const NO_MEMORY: u8 = 7;

/// The words of the command line behind the program's own name.
fn words_of(rt: &HostRuntime) -> io::Result<Vec<String>> {
    let mut words = Vec::new(rt.alloc());
    for word in env::args(rt)?.skip(1) {
        words.push(word)?;
    }
    Ok(words)
}

/// The words as texts.
fn texts_of(alloc: Global, words: &[String]) -> Result<Vec<&str>, AllocError> {
    let mut texts = Vec::new(alloc);
    for word in words {
        texts.push(word.as_str())?;
    }
    Ok(texts)
}

/// A keeper without rows that never fails.
#[tactic(auto, using(jar_keeper::proofs::RowLemmas::none_rise))]
fn no_rows(alloc: Global) -> MemKeeper {
    MemKeeper::of(alloc, Rows::new(alloc), Vec::new(alloc))
}

/// Runs the tool over a keeper, from standard input to standard output.
fn run_over<K: Keeper + Drop>(rt: &HostRuntime, words: &[&str], keeper: K) -> Outcome<K> {
    let mut source = StdSource::of(rt.stdin());
    let mut sink = StdSink::of(rt.stdout());
    serial_tool(rt.alloc(), words, &mut source, &mut sink, keeper)
}

/// Runs the tool over the store in a file, and answers its status.
fn run_stored(rt: &HostRuntime, words: &[&str], path: &str) -> u8 {
    let conn = match Connection::open(rt, path) {
        Ok(conn) => conn,
        Err(Error::SqliteFailure(ErrorCode::OutOfMemory)) => return NO_MEMORY,
        Err(_) => return no_store(rt),
    };
    match SqliteKeeper::over(conn) {
        Ok(keeper) => {
            let Outcome { status, keeper, .. } = run_over(rt, words, keeper);
            // All that was committed is in the store, also where this fails.
            drop(keeper.into_connection().close());
            status
        }
        Err(fail) => match fail.refusal {
            OverRefusal::Refused => no_store(rt),
            OverRefusal::NoMemory => NO_MEMORY,
        },
    }
}

/// Says that the store can't be used, and answers the status of that.
fn no_store(rt: &HostRuntime) -> u8 {
    // Where nobody can be told so, the status does.
    drop(eprintln!(rt; "cookiejar: cannot use store"));
    STORE_FAULT
}

fn main(rt: HostRuntime) -> ExitCode {
    let words = match words_of(&rt) {
        Ok(words) => words,
        Err(error) if error.kind() == io::ErrorKind::OutOfMemory => {
            return ExitCode::from(NO_MEMORY);
        }
        // A word that is no text is in no list that the tool takes, and neither is no word.
        Err(_) => Vec::new(rt.alloc()),
    };
    let Ok(texts) = texts_of(rt.alloc(), words.as_slice()) else {
        return ExitCode::from(NO_MEMORY);
    };
    let texts = texts.as_slice();
    let status = match store_path(texts) {
        Some(path) => run_stored(&rt, texts, path),
        None => run_over(&rt, texts, no_rows(rt.alloc())).status,
    };
    ExitCode::from(status)
}

#[cfg(test)]
mod tests;
