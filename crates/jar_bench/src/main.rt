//! The program `jar_bench`: reads of an unchanged `document.cookie` over the jar that threads share,
//! and bare loads and copies, which `bench/reuse.py` times.
#![tactic(auto)]

mod jar;
mod reader;
mod rounds;
mod run;
mod words;

use crate::jar::opened;
use crate::run::run;
use crate::words::{Asked, read_words};
use std::marker::Brand;
use std::process::ExitCode;

fn main(rt: HostRuntime) -> ExitCode {
    let Ok(words) = read_words(&rt) else {
        return ExitCode::from(7);
    };
    let Some(
        Asked {
            task,
            threads,
            rounds,
        },
    ) = words
    else {
        return ExitCode::from(2);
    };
    let Ok(opened) = opened(rt.alloc(), threads) else {
        return ExitCode::from(7);
    };
    let Ok(tally) = run::<Brand, _>(&rt, rt.alloc(), opened, task, threads, rounds) else {
        return ExitCode::from(7);
    };
    match println!(rt; "{} {}", tally.sum, tally.looks) {
        Ok(()) => ExitCode::from(0),
        Err(_) => ExitCode::from(5),
    }
}
