//! The names by which a step is refused: those of its line, those of the cookie that it makes, that
//! of another origin than the document's, and that of a jar that takes no more entries.

ghost use Rattle.std.specs.Prelude.{◌≡◌, IfOk};
ghost use Rattle.canonical_cookie.specs.declared.refusal.CookieRefusal.TheVariants as cookie;
ghost use Rattle.set_cookie_line.specs.declared.line.LineRefusal.TheVariants as line;
ghost use Rattle.run_report.specs.RefusalNames as spec;

use canonical_cookie::CookieRefusal;
use jar_values::NoMemory;
use set_cookie_line::LineRefusal;

/// The name by which a step is refused.
///
/// Of the line, in the order of [`read_line`](set_cookie_line::read_line); of the cookie, in that of
/// [`make`](canonical_cookie::make); `OriginMismatch`, where a renderer's URL is of another origin
/// than its document, which is tried before the line; and `Spent`, where callers have all the entries
/// that they may have.
///
/// This jar's own rule: docs/DEFINITIONS.md.
#[derive(Clone, Copy)]
pub enum RefusalName {
    Control,
    Empty,
    TooLong,
    DomainNotAscii,
    DomainSuffix,
    DomainMismatch,
    KeyMismatch,
    SecureFromInsecure,
    HttpOnlyFromScript,
    NoneInsecure,
    CrossSite,
    PrefixSecure,
    PrefixHost,
    PrefixNameless,
    OriginMismatch,
    Spent,
}

impl RefusalName {
    /// The name of a line's refusal.
    pub fn of_line(refusal: LineRefusal) -> Result<RefusalName, NoMemory>
        ensures value { IfOk result (λ name. name ≡ spec.of_line refusal) }
        ensures sure { IfOk result (λ name. refusal ≡ line.NoMemory → ⊥) }
    {
        match refusal {
            LineRefusal::Control => Ok(RefusalName::Control),
            LineRefusal::Empty => Ok(RefusalName::Empty),
            LineRefusal::TooLong => Ok(RefusalName::TooLong),
            LineRefusal::NoMemory => Err(NoMemory),
        }
    }

    /// The name of a cookie's refusal.
    pub fn of_cookie(refusal: CookieRefusal) -> Result<RefusalName, NoMemory>
        ensures value { IfOk result (λ name. name ≡ spec.of_cookie refusal) }
        ensures sure { IfOk result (λ name. refusal ≡ cookie.NoMemory → ⊥) }
    {
        match refusal {
            CookieRefusal::DomainNotAscii => Ok(RefusalName::DomainNotAscii),
            CookieRefusal::DomainSuffix => Ok(RefusalName::DomainSuffix),
            CookieRefusal::DomainMismatch => Ok(RefusalName::DomainMismatch),
            CookieRefusal::KeyMismatch => Ok(RefusalName::KeyMismatch),
            CookieRefusal::SecureFromInsecure => Ok(RefusalName::SecureFromInsecure),
            CookieRefusal::HttpOnlyFromScript => Ok(RefusalName::HttpOnlyFromScript),
            CookieRefusal::NoneInsecure => Ok(RefusalName::NoneInsecure),
            CookieRefusal::CrossSite => Ok(RefusalName::CrossSite),
            CookieRefusal::PrefixSecure => Ok(RefusalName::PrefixSecure),
            CookieRefusal::PrefixHost => Ok(RefusalName::PrefixHost),
            CookieRefusal::PrefixNameless => Ok(RefusalName::PrefixNameless),
            CookieRefusal::NoMemory => Err(NoMemory),
        }
    }

    /// Its word in a report.
    pub fn word(self) -> &'static str
        ensures { result.now ≡ spec.refusal_word self }
    {
        match self {
            RefusalName::Control => "Control",
            RefusalName::Empty => "Empty",
            RefusalName::TooLong => "TooLong",
            RefusalName::DomainNotAscii => "DomainNotAscii",
            RefusalName::DomainSuffix => "DomainSuffix",
            RefusalName::DomainMismatch => "DomainMismatch",
            RefusalName::KeyMismatch => "KeyMismatch",
            RefusalName::SecureFromInsecure => "SecureFromInsecure",
            RefusalName::HttpOnlyFromScript => "HttpOnlyFromScript",
            RefusalName::NoneInsecure => "NoneInsecure",
            RefusalName::CrossSite => "CrossSite",
            RefusalName::PrefixSecure => "PrefixSecure",
            RefusalName::PrefixHost => "PrefixHost",
            RefusalName::PrefixNameless => "PrefixNameless",
            RefusalName::OriginMismatch => "OriginMismatch",
            RefusalName::Spent => "Spent",
        }
    }
}
