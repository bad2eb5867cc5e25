//! The words that the program takes.

ghost use Rattle.std.specs.Prelude.{◌≡◌, map, option_copied};
ghost use Rattle.script_run.specs.Words as spec;

/// What a word that names the store in one begins with.
const STORE_IS: &str = "--store=";

/// The file of the store that the words name: FILE of `serial --store FILE` and
/// `serial --store=FILE`, which isn't empty and doesn't begin with a hyphen.
///
/// It takes no memory. This jar's own rule: docs/DEFINITIONS.md.
pub fn store_path<'a>(words: &[&'a str]) -> Option<&'a str>
    ensures { option_copied result ≡ spec.store_file (map (λ word. word.now) words.now) }
{
    if words.len() == 2 && words[0] == "serial" {
        return file_in(words[1]);
    }
    if words.len() == 3 && words[0] == "serial" && words[1] == "--store" {
        return file_of(words[2]);
    }
    None
}

/// Whether the words are those of `serial`, with a store or without one.
pub fn runs_serial(words: &[&str]) -> bool
    ensures { result ≡ spec.runs_serial (map (λ word. word.now) words.now) }
{
    is_bare(words) || store_path(words).is_some()
}

/// Whether the words are `serial` alone.
fn is_bare(words: &[&str]) -> bool
    ensures { result ≡ spec.is_bare (map (λ word. word.now) words.now) }
{
    words.len() == 1 && words[0] == "serial"
}

/// The file of the word `--store=FILE`.
fn file_in(word: &str) -> Option<&str>
    ensures { option_copied result ≡ spec.file_in word.now }
{
    match word.strip_prefix(STORE_IS) {
        Some(name) => file_of(name),
        None => None,
    }
}

/// The text, where it is a file's name.
fn file_of(name: &str) -> Option<&str>
    ensures { option_copied result ≡ spec.file_of name.now }
{
    if name.is_empty() || name.starts_with('-') {
        return None;
    }
    Some(name)
}
