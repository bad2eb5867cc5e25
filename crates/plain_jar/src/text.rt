//! The text of an answer.

ghost use Rattle.std.specs.Prelude.{◌≡◌, ◌++◌, [], IfOk, OnOk, codes, nat_lt, string_bytes, if◌then◌else◌};
ghost use Rattle.jar_types.specs.Answers as answers;

use jar_types::{Cookie, NoMemory, Text};
use std::alloc::{AllocError, Global};

/// The text of these cookies.
///
/// RFC 6265, section 5.4, step 4.
pub fn answer_text(alloc: Global, cookies: &[Cookie]) -> Result<Text, NoMemory>
    ensures { IfOk result (λ text. text ≡ answers.answer_text cookies.now) }
{
    Text::from_string(answer_string(alloc, cookies)?)
}

/// The text of these cookies as a string.
fn answer_string(alloc: Global, cookies: &[Cookie]) -> Result<String, AllocError>
    ensures { IfOk result (λ text. string_bytes text ≡ answers.answer_text cookies.now) }
{
    let mut text = String::new(alloc);
    for (place, cookie) in cookies.iter().enumerate() {
        push_separator(&mut text, place)?;
        push_pair(&mut text, cookie)?;
    }
    Ok(text)
}

/// Adds what stands before the cookie at a place.
fn push_separator(text: &mut String, place: usize) -> Result<(), AllocError>
    ensures { OnOk result (string_bytes text.new
        ≡ string_bytes text.old ++ (if nat_lt 0 place then codes "; " else [])) }
{
    if place > 0 {
        text.push_str("; ")?;
    }
    Ok(())
}

/// Adds the part of a cookie: its value alone where it has no name.
fn push_pair(text: &mut String, cookie: &Cookie) -> Result<(), AllocError>
    ensures { OnOk result (string_bytes text.new
        ≡ string_bytes text.old ++ answers.pair_text cookie.now) }
{
    if !cookie.name.as_str().is_empty() {
        text.push_str(cookie.name.as_str())?;
        text.push_str("=")?;
    }
    text.push_str(cookie.value.as_str())?;
    Ok(())
}
