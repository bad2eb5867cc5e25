//! Texts in a list.

ghost use Rattle.std.specs.Prelude.{◌≡◌, IfOk};
ghost use Rattle.jar_types.specs.Loads as spec;

use jar_types::{NoMemory, Text};
use std::alloc::Global;

/// Whether a text is among these.
pub fn has_text(texts: &[Text], text: &str) -> bool
    ensures { result ≡ spec.has_text text.now texts.now }
{
    texts.iter().any(|other| text == other.as_str())
}

/// Takes a text out.
pub fn take_out(texts: &mut Vec<Text>, text: &str)
    ensures { texts.new.items ≡ spec.without_text text.now texts.old.items }
{
    texts.retain(|other| text != other.as_str());
}

/// The same texts again.
pub fn copied(alloc: Global, texts: &[Text]) -> Result<Vec<Text>, NoMemory>
    ensures { IfOk result (λ copies. copies.items ≡ texts.now) }
{
    let mut copies = Vec::new(alloc);
    for text in texts {
        copies.push(text.copy(alloc)?)?;
    }
    Ok(copies)
}
