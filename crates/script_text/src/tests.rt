//! What scripts are, by the rules of docs/DEFINITIONS.md.

mod counts;
mod deadlocks;
mod refusals;
mod steps;

use crate::refused::{Refused, ScriptRefusal};
use crate::script::Script;
use std::alloc::Global;
use std::test::Fail;

/// A script of these actors, and of what follows them.
fn script_text(alloc: Global, actors: &str, rest: &str) -> Result<String, Fail> {
    Ok(format!(in alloc; "{{\"actors\":[{actors}]{rest}}}")?)
}

/// A fetch with these steps.
fn fetch(alloc: Global, steps: &str) -> Result<String, Fail> {
    Ok(format!(in alloc; "{{\"kind\":\"fetch\",\"steps\":[{steps}]}}")?)
}

/// A renderer of `https://a.test/` with these steps.
fn renderer(alloc: Global, steps: &str) -> Result<String, Fail> {
    Ok(format!(in alloc;
        "{{\"document\":\"https://a.test/\",\"kind\":\"renderer\",\"site\":null,\"steps\":[{steps}]}}"
    )?)
}

/// The script that a text is.
fn script(alloc: Global, text: &str) -> Result<Script, Fail> {
    match Script::read(alloc, text.as_bytes()) {
        Ok(script) => Ok(script),
        Err(_) => Err("no script".into()),
    }
}

/// Why a text is refused.
fn refused(alloc: Global, text: &str) -> Result<Refused, Fail> {
    match Script::read(alloc, text.as_bytes()) {
        Err(ScriptRefusal::Refused(refused)) => Ok(refused),
        Err(ScriptRefusal::NoMemory) => Err("out of memory".into()),
        Ok(_) => Err("a script".into()),
    }
}
