//! Paths, as JSON Pointers.

ghost use Rattle.std.specs.Prelude.{◌≡◌, ◌++◌, [], Some, IfOk, encode_utf8, option_map, string_bytes};
ghost use Rattle.json_form.specs.Paths.{here_unless, in_member, in_item, escape};

use jar_values::NoMemory;
use std::alloc::Global;

/// The path of the value itself, which is empty and takes no memory.
pub fn here(alloc: Global) -> Option<String>
    ensures { option_map string_bytes result ≡ Some [] }
{
    Some(String::new(alloc))
}

/// The path of the value itself, unless it fits.
pub fn here_unless(alloc: Global, fits: bool) -> Option<String>
    ensures { option_map string_bytes result ≡ here_unless fits }
{
    if fits { None } else { here(alloc) }
}

/// The path inside the member of a name.
///
/// RFC 6901, section 3.
pub fn in_member(alloc: Global, name: &str, rest: &str) -> Result<String, NoMemory>
    ensures { IfOk result (λ path. string_bytes path ≡ in_member name.now rest.now) }
{
    let mut path = String::new(alloc);
    path.push('/')?;
    push_escaped(&mut path, name)?;
    path.push_str(rest)?;
    Ok(path)
}

/// The path inside the item of an index.
///
/// RFC 6901, section 4.
pub fn in_item(alloc: Global, index: usize, rest: &str) -> Result<String, NoMemory>
    ensures { IfOk result (λ path. string_bytes path ≡ in_item index rest.now) }
{
    Ok(format!(in alloc; "/{index}{rest}")?)
}

/// Appends a name, with its `~` and `/` escaped.
fn push_escaped(path: &mut String, name: &str) -> Result<(), NoMemory>
    ensures { IfOk result (λ _. string_bytes path.new ≡ string_bytes path.old ++ escape name.now) }
{
    for character in name.chars() {
        push_escaped_char(path, character)?;
    }
    Ok(())
}

/// Appends a character, escaped where it is `~` or `/`.
fn push_escaped_char(path: &mut String, character: char) -> Result<(), NoMemory>
    ensures { IfOk result
        (λ _. string_bytes path.new ≡ string_bytes path.old ++ escape (encode_utf8 character)) }
{
    match character {
        '~' => Ok(path.push_str("~0")?),
        '/' => Ok(path.push_str("~1")?),
        _ => Ok(path.push(character)?),
    }
}
