//! The program `reuse_bench`: loads, looks and reuses in a loop, which `bench/reuse.py` times.
#![tactic(auto)]

mod bench;
mod task;

use crate::bench::Bench;
use crate::task::Task;
use jar_types::Moment;
use std::process::ExitCode;
use std::{env, io};

/// The task and the rounds that the words of the command line ask for, `None` for other words.
fn asked(rt: &HostRuntime) -> io::Result<Option<(Task, u64)>> {
    let mut words = env::args(rt)?.skip(1);
    let (Some(task), Some(rounds), None) = (words.next(), words.next(), words.next()) else {
        return Ok(None);
    };
    let task = Task::of(task.as_str());
    let Ok(rounds) = rounds.parse::<u64>() else {
        return Ok(None);
    };
    Ok(task.map(|task| (task, rounds)))
}

fn main(rt: HostRuntime) -> ExitCode {
    let Ok(asked) = asked(&rt) else {
        return ExitCode::from(7);
    };
    let Some((task, rounds)) = asked else {
        return ExitCode::from(2);
    };
    let Some(now) = Moment::of(0) else {
        return ExitCode::from(7);
    };
    let Ok(mut bench) = Bench::make(rt.alloc(), now) else {
        return ExitCode::from(7);
    };
    let sum = bench.sum(rt.alloc(), task, now, rounds);
    match println!(rt; "{sum} {}", bench.looks()) {
        Ok(()) => ExitCode::from(0),
        Err(_) => ExitCode::from(5),
    }
}
