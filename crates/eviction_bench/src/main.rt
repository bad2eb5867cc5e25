//! The program `eviction_bench`: plans of a key and of a jar in a loop, which `bench/eviction.py` times.
#![tactic(auto)]

mod bench;
mod task;

use crate::bench::Bench;
use crate::task::Task;
use jar_types::Moment;
use std::process::ExitCode;
use std::{env, io};

/// What the words of the command line ask for.
#[derive(Clone, Copy)]
struct Loop {
    task: Task,
    faces: u64,
    rounds: u64,
}

/// The task, the faces and the rounds of the words, `None` for other words.
fn asked(rt: &HostRuntime) -> io::Result<Option<Loop>> {
    let mut words = env::args(rt)?.skip(1);
    let (Some(task), Some(faces), Some(rounds), None) = (
        words.next(),
        words.next(),
        words.next(),
        words.next(),
    ) else {
        return Ok(None);
    };
    let (Some(task), Ok(faces), Ok(rounds)) = (
        Task::of(task.as_str()),
        faces.parse::<u64>(),
        rounds.parse::<u64>(),
    ) else {
        return Ok(None);
    };
    Ok(Some(Loop {
        task,
        faces,
        rounds,
    }))
}

fn main(rt: HostRuntime) -> ExitCode {
    let Ok(asked) = asked(&rt) else {
        return ExitCode::from(7);
    };
    let Some(asked) = asked else {
        return ExitCode::from(2);
    };
    let Some(now) = Moment::of(10_000_000_000) else {
        return ExitCode::from(7);
    };
    let Ok(bench) = Bench::make(rt.alloc(), asked.faces) else {
        return ExitCode::from(7);
    };
    let Ok(going) = bench.plan(rt.alloc(), asked.task, now, asked.rounds) else {
        return ExitCode::from(7);
    };
    match println!(rt; "{going}") {
        Ok(()) => ExitCode::from(0),
        Err(_) => ExitCode::from(5),
    }
}
