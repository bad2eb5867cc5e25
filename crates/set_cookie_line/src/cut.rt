//! Texts cut at a separator.

ghost use Rattle.std.specs.Prelude.{◌≡◌, ◌<◌, option_copied};
ghost use Rattle.set_cookie_line.specs.Cut as spec;

/// The text before the first separator, which is ASCII, and the text after it where there is a
/// separator.
pub fn cut(text: &str, separator: char) -> (&str, Option<&str>)
    requires { separator < 128 }
    ensures before { result.0.now ≡ (spec.cut separator text.now).0 }
    ensures after { option_copied result.1 ≡ (spec.cut separator text.now).1 }
{
    match text.split_once(separator) {
        Some((before, after)) => (before, Some(after)),
        None => (text, None),
    }
}
