//! The line of a refused input.

ghost use Rattle.std.specs.Prelude.{◌≡◌, IfOk};
ghost use Rattle.serde_json.specs.View.{view};
ghost use Rattle.script_run.specs.Refusals as spec;

use jar_types::NoMemory;
use script_text::{Refusal, Refused};
use serde_json::{Value, json};
use std::alloc::{AllocError, Global};

/// The text of the line of a keeper that failed.
const STORE_FAULT_LINE: &str = "{\"path\":\"\",\"refused\":\"StoreFault\"}\n";

/// The line of a refusal, which a newline ends.
pub fn refusal_line(alloc: Global, refused: &Refused) -> Result<Vec<u8>, NoMemory>
    ensures { IfOk result (λ text. text.items ≡ spec.refusal_line refused.entry.now) }
{
    let value = refusal_value(alloc, refused)?;
    let mut text = value.to_vec(alloc)?;
    text.push(b'\n')?;
    Ok(text)
}

/// The line of a keeper that failed before anything was run.
pub fn store_fault_line(alloc: Global) -> Result<Vec<u8>, NoMemory>
    ensures { IfOk result (λ text. text.items ≡ spec.store_fault_line) }
{
    Ok(Vec::from_slice(alloc, STORE_FAULT_LINE.as_bytes())?)
}

/// A refusal as JSON.
fn refusal_value(alloc: Global, refused: &Refused) -> Result<Value, AllocError>
    ensures { IfOk result (λ v. view v ≡ spec.refusal_data refused.entry.now) }
{
    json!(in alloc; {"path": refused.path.as_str(), "refused": refusal_word(refused.name)})
}

/// The word of a refusal.
fn refusal_word(name: Refusal) -> &'static str
    ensures { result.now ≡ spec.refusal_word name }
{
    match name {
        Refusal::TooLarge => "TooLarge",
        Refusal::NotJson => "NotJson",
        Refusal::Shape => "Shape",
        Refusal::TooMany => "TooMany",
        Refusal::BadMoment => "BadMoment",
        Refusal::BadSuffixes => "BadSuffixes",
        Refusal::BadPlace => "BadPlace",
        Refusal::Deadlock => "Deadlock",
    }
}
