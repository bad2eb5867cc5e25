//! The attributes that a line keeps, the last one of each kind.

ghost use Rattle.std.specs.Prelude.{◌≡◌, []};
ghost use Rattle.set_cookie_line.specs.Attribute.{attribute_of, read_attribute};
ghost use Rattle.set_cookie_line.specs.Kept as spec;

use crate::attribute::{
    Kind, MAX_ATTRIBUTE_BYTES, attribute_parts, kind_of, read_domain, read_path, read_priority,
    read_same_site,
};
use crate::max_age::read_max_age;
use cookie_date::cookie_date;
use jar_values::{Moment, Priority, SameSite};

/// The attributes that were kept so far.
#[derive(Clone, Copy)]
pub struct Kept<'a> {
    pub expires: Option<Moment>,
    pub max_age: Option<u32>,
    pub domain: Option<&'a str>,
    pub path: Option<&'a str>,
    pub secure: bool,
    pub http_only: bool,
    pub same_site: SameSite,
    pub priority: Priority,
}

/// What the attributes between the semicolons of a text come to.
///
/// The 6265bis draft, sections 5.6 and 5.7.
#[tactic(auto, using(crate::proofs::KeptLemmas::attributes_push))]
pub fn attributes_between(text: &str) -> Kept<'_>
    ensures { spec.kept_view result ≡ spec.attributes_between text.now }
{
    let mut kept = no_attributes();
    for attribute in text.split(';') {
        keep_text(&mut kept, attribute);
    }
    kept
}

/// No attributes.
pub fn no_attributes<'a>() -> Kept<'a>
    ensures { spec.kept_view result ≡ spec.attributes_of [] }
{
    Kept {
        expires: None,
        max_age: None,
        domain: None,
        path: None,
        secure: false,
        http_only: false,
        same_site: SameSite::Unspecified,
        priority: Priority::Medium,
    }
}

/// Keeps the attribute that a text is, unless it is dropped.
#[tactic(auto, unfolding(crate::specs::Attribute::read_attribute))]
fn keep_text<'a>(kept: &mut Kept<'a>, text: &'a str)
    ensures { spec.kept_view kept.new
        ≡ spec.with_attribute (spec.kept_view kept.old) (read_attribute text.now) }
{
    let (name, value) = attribute_parts(text);
    if value.len() <= MAX_ATTRIBUTE_BYTES {
        keep_value(kept, kind_of(name), value);
    }
}

/// Keeps one attribute more, of this kind and value, unless its date or number can't be read.
fn keep_value<'a>(kept: &mut Kept<'a>, kind: Kind, value: &'a str)
    ensures { spec.kept_view kept.new
        ≡ spec.with_attribute (spec.kept_view kept.old) (attribute_of kind value.now) }
{
    match kind {
        Kind::Expires => {
            if let Some(moment) = cookie_date(value.as_bytes()) {
                kept.expires = Some(moment);
            }
        }
        Kind::MaxAge => {
            if let Some(seconds) = read_max_age(value.as_bytes()) {
                kept.max_age = Some(seconds);
            }
        }
        Kind::Domain => kept.domain = read_domain(value),
        Kind::Path => kept.path = read_path(value),
        Kind::Secure => kept.secure = true,
        Kind::HttpOnly => kept.http_only = true,
        Kind::SameSite => kept.same_site = read_same_site(value),
        Kind::Priority => kept.priority = read_priority(value),
        Kind::Unknown => (),
    }
}
