//! The names and values of attributes.

ghost use Rattle.std.specs.Prelude.{◌≡◌, option_copied, option_map};
ghost use Rattle.std.specs.Str.{str_to_ascii_lowercase};
ghost use Rattle.set_cookie_line.specs.Attribute as spec;

use crate::blanks::trim;
use crate::cut::cut;
use jar_values::{Priority, SameSite, undotted};

/// The most bytes of an attribute's value, after its blanks are removed.
///
/// The 6265bis draft, section 5.6.
pub const MAX_ATTRIBUTE_BYTES: usize = 1024;

/// The kind of an attribute, by its name.
#[derive(Clone, Copy)]
pub enum Kind {
    Expires,
    MaxAge,
    Domain,
    Path,
    Secure,
    HttpOnly,
    SameSite,
    Priority,
    Unknown,
}

/// The name and the value of the attribute that a text is, before and after its first `=`.
///
/// The 6265bis draft, section 5.6.
pub fn attribute_parts(text: &str) -> (&str, &str)
    ensures name { result.0.now ≡ spec.attribute_name text.now }
    ensures value { result.1.now ≡ spec.attribute_value text.now }
{
    let (name, value) = cut(text, '=');
    (trim(name), trim(value.unwrap_or("")))
}

/// The kind of attribute that has this name, without ASCII case.
///
/// The 6265bis draft, section 5.6; Priority is this jar's own.
pub fn kind_of(name: &str) -> Kind
    ensures { result ≡ spec.kind_of name.now }
{
    if name.eq_ignore_ascii_case("expires") {
        Kind::Expires
    } else if name.eq_ignore_ascii_case("max-age") {
        Kind::MaxAge
    } else if name.eq_ignore_ascii_case("domain") {
        Kind::Domain
    } else if name.eq_ignore_ascii_case("path") {
        Kind::Path
    } else if name.eq_ignore_ascii_case("secure") {
        Kind::Secure
    } else if name.eq_ignore_ascii_case("httponly") {
        Kind::HttpOnly
    } else if name.eq_ignore_ascii_case("samesite") {
        Kind::SameSite
    } else if name.eq_ignore_ascii_case("priority") {
        Kind::Priority
    } else {
        Kind::Unknown
    }
}

/// The domain of a Domain value without one dot in front, in the letters that it is written in;
/// none where nothing is left.
///
/// The 6265bis draft, section 5.6.3.
pub fn read_domain(value: &str) -> Option<&str>
    ensures { option_map str_to_ascii_lowercase (option_copied result)
        ≡ spec.read_domain value.now }
{
    let domain = undotted(value);
    if domain.is_empty() {
        None
    } else {
        Some(domain)
    }
}

/// The path of a Path value; none where it does not begin with `/`.
///
/// The 6265bis draft, section 5.6.4.
pub fn read_path(value: &str) -> Option<&str>
    ensures { option_copied result ≡ spec.read_path value.now }
{
    if value.starts_with("/") {
        Some(value)
    } else {
        None
    }
}

/// What a SameSite value names.
///
/// The 6265bis draft, section 5.6.7.
pub fn read_same_site(value: &str) -> SameSite
    ensures { result ≡ spec.read_same_site value.now }
{
    if value.eq_ignore_ascii_case("none") {
        SameSite::NoLimit
    } else if value.eq_ignore_ascii_case("lax") {
        SameSite::Lax
    } else if value.eq_ignore_ascii_case("strict") {
        SameSite::Strict
    } else {
        SameSite::Unspecified
    }
}

/// What a Priority value names.
///
/// This jar's own rule: docs/DEFINITIONS.md.
pub fn read_priority(value: &str) -> Priority
    ensures { result ≡ spec.read_priority value.now }
{
    if value.eq_ignore_ascii_case("low") {
        Priority::Low
    } else if value.eq_ignore_ascii_case("high") {
        Priority::High
    } else {
        Priority::Medium
    }
}
