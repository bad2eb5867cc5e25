//! Blanks round a text.

ghost use Rattle.std.specs.Prelude.{◌≡◌};
ghost use Rattle.std.specs.List.{prefix_len, suffix_len};
ghost use Rattle.jar_values.specs.Bytes.{is_blank};
ghost use Rattle.set_cookie_line.specs.Blanks as spec;

use jar_values::is_blank;

/// The text without the spaces and tabs at both ends.
///
/// The 6265bis draft, section 5.6.
pub fn trim(text: &str) -> &str
    ensures { result.now ≡ spec.trimmed text.now }
{
    without_end(without_front(text))
}

/// The text without the blanks in front.
fn without_front(text: &str) -> &str
    ensures { result.now ≡ spec.without_front text.now }
{
    let start = front_blanks(text.as_bytes());
    &text[start..]
}

/// The text without the blanks at its end.
fn without_end(text: &str) -> &str
    ensures { result.now ≡ spec.without_end text.now }
{
    let end = text.len() - end_blanks(text.as_bytes());
    &text[..end]
}

/// How many blanks a text begins with.
fn front_blanks(bytes: &[u8]) -> usize
    ensures { result ≡ prefix_len is_blank bytes.now }
{
    bytes.iter().take_while(|byte| is_blank(**byte)).count()
}

/// How many blanks a text ends with.
fn end_blanks(bytes: &[u8]) -> usize
    ensures { result ≡ suffix_len is_blank bytes.now }
{
    bytes
        .iter()
        .rev()
        .take_while(|byte| is_blank(**byte))
        .count()
}
