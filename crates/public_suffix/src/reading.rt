//! Reading the rules of a suffix list.

ghost use Rattle.std.specs.Prelude.{◌≡◌, ◌<◌, ◌==◌, drop, length, position, slice_index, string_bytes, IfSome, Some};
ghost use Rattle.std.specs.List.{list_any, before_first};
ghost use Rattle.idna.specs.Errors.{Gives};
ghost use Rattle.idna.specs.Uts46.{domain_to_ascii};
ghost use Rattle.public_suffix.specs.Rule as spec;
ghost use Rattle.public_suffix.specs.Rule.{is_blank, reading_of, reading_of_rule, reading_by, mark_of, mark_len};
ghost use Rattle.public_suffix.specs.Seen.{ReadsRule, ReadsLine, ReadsText};

use crate::labels::{count_labels, has_empty_label};
use crate::rule::{Mark, Rule, RuleRefusal};
use idna::{AsciiDenyList, Errors, domain_to_ascii_cow};
use jar_values::Text;
use std::alloc::Global;

/// The rule that a line names, if it names one.
pub fn rule_of_line(alloc: Global, line: &str) -> Result<Option<Rule>, RuleRefusal>
    ensures { ReadsLine (reading_of line.now) result }
{
    let word = first_word(line);
    if word.is_empty() || word.starts_with("//") {
        return Ok(None);
    }
    Ok(Some(read_rule(alloc, word)?))
}

/// A line up to its first blank.
fn first_word(line: &str) -> &str
    ensures { result.now ≡ before_first is_blank line.now }
{
    match first_blank(line) {
        Some(end) => &line[..end],
        None => line,
    }
}

/// The index of the first blank of a line.
fn first_blank(line: &str) -> Option<usize>
    ensures value { result ≡ position is_blank line.now }
    ensures blank { IfSome result (λ i. (i < length line.now) × (slice_index line.now i < 128)) }
{
    line.as_bytes().iter().position(|b| is_blank_byte(*b))
}

/// Whether a byte ends a line's rule.
fn is_blank_byte(byte: u8) -> bool
    ensures { result ≡ is_blank byte }
{
    byte == b' ' || byte == b'\t' || byte == b'\r'
}

/// The rule that a word names.
fn read_rule(alloc: Global, word: &str) -> Result<Rule, RuleRefusal>
    ensures { ReadsRule (reading_of_rule word.now) result }
{
    if word == "*" {
        return Ok(Rule {
            mark: Mark::Wildcard,
            text: Text::of(alloc, "")?,
        });
    }
    let (mark, rest) = split_mark(word);
    marked_rule(mark, rule_text(alloc, rest)?)
}

/// The mark of a rule as it is written, and the text after it.
fn split_mark(word: &str) -> (Mark, &str)
    ensures mark { result.0 ≡ mark_of word.now }
    ensures rest { result.1.now ≡ drop (mark_len (mark_of word.now)) word.now }
{
    if let Some(rest) = word.strip_prefix("!") {
        return (Mark::Exception, rest);
    }
    match word.strip_prefix("*.") {
        Some(rest) => (Mark::Wildcard, rest),
        None => (Mark::Plain, word),
    }
}

/// The rule of a mark and a text: an exception has two labels at least.
fn marked_rule(mark: Mark, text: Text) -> Result<Rule, RuleRefusal>
    ensures { ReadsRule (reading_by mark (Some text)) result }
{
    match mark {
        Mark::Exception => {
            if count_labels(text.as_str()) < 2 {
                Err(RuleRefusal::NoRule)
            } else {
                Ok(Rule { mark, text })
            }
        }
        Mark::Plain | Mark::Wildcard => Ok(Rule { mark, text }),
    }
}

/// The ASCII form of a rule's text after its mark.
fn rule_text(alloc: Global, text: &str) -> Result<Text, RuleRefusal>
    ensures { ReadsText (spec.rule_text text.now) result }
{
    let ascii = ascii_form(alloc, text)?;
    if is_rule_text(ascii.as_str()) {
        Ok(Text::from_string(ascii)?)
    } else {
        Err(RuleRefusal::NoRule)
    }
}

/// The ASCII form of a text.
fn ascii_form(alloc: Global, text: &str) -> Result<String, Errors>
    ensures { Gives string_bytes result (domain_to_ascii AsciiDenyList.URL text.now) }
{
    let name = domain_to_ascii_cow(alloc, text.as_bytes(), AsciiDenyList::URL)?;
    Ok(name.into_owned(alloc)?)
}

/// Whether an ASCII form can be a rule.
fn is_rule_text(ascii: &str) -> bool
    ensures { result ≡ spec.is_rule_text ascii.now }
{
    !has_star(ascii) && !has_empty_label(ascii)
}

/// Whether a text has a `*`.
fn has_star(text: &str) -> bool
    ensures { result ≡ list_any (λ b. b == 42) text.now }
{
    text.bytes().any(|b| b == b'*')
}
