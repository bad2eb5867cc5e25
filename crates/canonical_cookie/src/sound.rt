//! Sound rows, point by point.

ghost use Rattle.std.specs.Prelude.{◌≡◌, ◌+◌, ◌==◌, ◌&&◌, not, nat_lt, nat_le, nat_eq, length, codes, bytes_eq};
ghost use Rattle.std.specs.List.{list_any, list_all, starts_with, prefix_len, suffix_len};
ghost use Rattle.jar_values.specs.Bytes as bytes_spec;
ghost use Rattle.jar_types.specs.Rows as spec;

use jar_types::Row;
use jar_values::{
    MAX_MOMENT, MAX_PAIR_BYTES, has_host_prefix, has_secure_prefix, is_blank, is_control,
    is_reserved, undotted,
};

/// Whether a row is sound.
///
/// This jar's own rule: docs/DEFINITIONS.md.
pub fn is_sound_row(row: &Row) -> bool
    ensures { result ≡ spec.is_sound_row row.now }
{
    has_sound_host(row)
        && has_sound_texts(row)
        && has_sound_pair(row)
        && has_sound_numbers(row)
        && has_sound_site(row)
        && has_sound_prefix(row)
}

/// Whether the host without one leading dot has bytes of hosts alone, and one at least.
fn has_sound_host(row: &Row) -> bool
    ensures { result ≡ spec.has_sound_host row.now }
{
    let host = undotted(row.host.as_str());
    !host.is_empty() && are_host_bytes(host.as_bytes())
}

/// Whether the path begins with `/`, no text has a control byte, and name and value have no semicolon.
fn has_sound_texts(row: &Row) -> bool
    ensures { result ≡ spec.has_sound_texts row.now }
{
    row.path.as_str().as_bytes().starts_with(b"/")
        && is_plain(row.path.as_str())
        && is_part(row.name.as_str())
        && is_part(row.value.as_str())
}

/// Whether the name has no `=`, name and value have no blanks round them, one of them isn't empty, and
/// they have at most [`MAX_PAIR_BYTES`] together.
fn has_sound_pair(row: &Row) -> bool
    ensures { result ≡ spec.has_sound_pair row.now }
{
    let name = row.name.as_str();
    let value = row.value.as_str();
    !has_byte(name.as_bytes(), b'=')
        && is_trimmed(name)
        && is_trimmed(value)
        && has_pair_bytes(name, value)
}

/// Whether moments are moments, and the numbers are of their kinds.
fn has_sound_numbers(row: &Row) -> bool
    ensures { result ≡ spec.has_sound_numbers row.now }
{
    has_sound_moments(row) && has_sound_kinds(row)
}

/// Whether moments are moments.
fn has_sound_moments(row: &Row) -> bool
    ensures { result ≡ (spec.is_up_to MAX_MOMENT row.now.creation
        && (spec.is_up_to MAX_MOMENT row.now.expiry
        && spec.is_up_to MAX_MOMENT row.now.access)) }
{
    is_up_to(MAX_MOMENT, row.creation)
        && is_up_to(MAX_MOMENT, row.expiry)
        && is_up_to(MAX_MOMENT, row.access)
}

/// Whether flags, SameSite and priority are of their kinds.
fn has_sound_kinds(row: &Row) -> bool
    ensures { result ≡ (spec.is_up_to 1 row.now.secure
        && (spec.is_up_to 1 row.now.http_only
        && (spec.is_up_to 3 row.now.same_site
        && spec.is_up_to 2 row.now.priority))) }
{
    is_up_to(1, row.secure)
        && is_up_to(1, row.http_only)
        && is_up_to(3, row.same_site)
        && is_up_to(2, row.priority)
}

/// Whether a SameSite of None comes with Secure.
fn has_sound_site(row: &Row) -> bool
    ensures { result ≡ spec.has_sound_site row.now }
{
    !is_one(row.same_site) || is_one(row.secure)
}

/// Whether a name of a reserved form, or a value without a name, keeps what the form asks for.
fn has_sound_prefix(row: &Row) -> bool
    ensures { result ≡ spec.has_sound_prefix row.now }
{
    let name = row.name.as_str();
    (!has_secure_prefix(name) || is_one(row.secure))
        && (!has_host_prefix(name) || is_of_one_root(row))
        && (!name.is_empty() || !is_reserved(row.value.as_str()))
}

/// Whether a row is of one host, is Secure and has the path `/`.
fn is_of_one_root(row: &Row) -> bool
    ensures { result ≡ (spec.is_one row.now.secure
        && (not (starts_with nat_eq row.now.host (codes "."))
        && bytes_eq row.now.path (codes "/"))) }
{
    is_one(row.secure)
        && !row.host.as_str().as_bytes().starts_with(b".")
        && row.path.as_str() == "/"
}

/// Whether all bytes are those of hosts.
fn are_host_bytes(bytes: &[u8]) -> bool
    ensures { result ≡ list_all spec.is_host_byte bytes.now }
{
    bytes.iter().all(|byte| is_host_byte(*byte))
}

/// Whether a byte is one of hosts: visible ASCII without upper-case letters.
fn is_host_byte(byte: u8) -> bool
    ensures { result ≡ spec.is_host_byte byte }
{
    matches!(byte, 0x21..=0x7E) && !matches!(byte, 0x41..=0x5A)
}

/// Whether a text has no control byte.
fn is_plain(text: &str) -> bool
    ensures { result ≡ spec.is_plain text.now }
{
    !has_control(text.as_bytes())
}

/// Whether there is a control byte.
fn has_control(bytes: &[u8]) -> bool
    ensures { result ≡ list_any bytes_spec.is_control bytes.now }
{
    bytes.iter().any(|byte| is_control(*byte))
}

/// Whether a text has neither a control byte nor a semicolon.
fn is_part(text: &str) -> bool
    ensures { result ≡ spec.is_part text.now }
{
    is_plain(text) && !has_byte(text.as_bytes(), b';')
}

/// Whether there is this byte.
fn has_byte(bytes: &[u8], wanted: u8) -> bool
    ensures { result ≡ list_any (λ byte. byte == wanted) bytes.now }
{
    bytes.iter().any(|byte| *byte == wanted)
}

/// Whether a text has no blanks round it.
fn is_trimmed(text: &str) -> bool
    ensures { result ≡ spec.is_trimmed text.now }
{
    front_blanks(text.as_bytes()) == 0 && end_blanks(text.as_bytes()) == 0
}

/// How many blanks a text begins with.
fn front_blanks(bytes: &[u8]) -> usize
    ensures { result ≡ prefix_len bytes_spec.is_blank bytes.now }
{
    bytes.iter().take_while(|byte| is_blank(**byte)).count()
}

/// How many blanks a text ends with.
fn end_blanks(bytes: &[u8]) -> usize
    ensures { result ≡ suffix_len bytes_spec.is_blank bytes.now }
{
    bytes
        .iter()
        .rev()
        .take_while(|byte| is_blank(**byte))
        .count()
}

/// Whether a name and a value aren't both empty, and have at most [`MAX_PAIR_BYTES`] together.
fn has_pair_bytes(name: &str, value: &str) -> bool
    ensures { result ≡ (nat_lt 0 (length name.now + length value.now)
        && nat_le (length name.now + length value.now) MAX_PAIR_BYTES) }
{
    !(name.is_empty() && value.is_empty()) && name.len() + value.len() <= MAX_PAIR_BYTES
}

/// Whether a number is from 0 up to a bound.
fn is_up_to(most: u64, number: i64) -> bool
    ensures { result ≡ spec.is_up_to most number }
{
    match u64::try_from(number) {
        Ok(number) => number <= most,
        Err(_) => false,
    }
}

/// Whether a number is 1.
pub fn is_one(number: i64) -> bool
    ensures { result ≡ spec.is_one number }
{
    number == 1
}
