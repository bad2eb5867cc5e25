//! Why a line makes no cookie.

ghost use Rattle.canonical_cookie.specs.declared.refusal.CookieRefusal.TheVariants as refusal;
ghost use Rattle.std.specs.Prelude.{◌≡◌};

use jar_values::NoMemory;
use std::error::Error;
use std::fmt;

/// Why a line makes no cookie at a place, in the order in which the causes apply.
#[derive(Clone, Copy, Debug, PartialEq, Eq)]
pub enum CookieRefusal {
    /// The Domain has a byte above 7F.
    DomainNotAscii,
    /// The Domain is a public suffix other than the host.
    DomainSuffix,
    /// The host doesn't domain-match the Domain.
    DomainMismatch,
    /// The Domain has another key than the host.
    KeyMismatch,
    /// Secure is given, and the place isn't secure.
    SecureFromInsecure,
    /// HttpOnly is given by a script.
    HttpOnlyFromScript,
    /// SameSite is None, and Secure isn't given.
    NoneInsecure,
    /// The line comes from another site, and SameSite isn't None.
    CrossSite,
    /// The name begins with `__Secure-`, and Secure isn't given.
    PrefixSecure,
    /// The name begins with `__Host-`, and Secure is absent, a Domain is there, or the Path isn't `/`.
    PrefixHost,
    /// There is no name, and the value begins with `__Secure-` or `__Host-`.
    PrefixNameless,
    /// Memory was wanting.
    NoMemory,
}

impl fmt::Display for CookieRefusal {
    fn fmt<W: fmt::Write>(&self, f: &mut fmt::Formatter<W>) -> fmt::Result {
        match self {
            CookieRefusal::DomainNotAscii => write!(f, "a Domain that isn't ASCII"),
            CookieRefusal::DomainSuffix => write!(f, "a Domain that is a public suffix"),
            CookieRefusal::DomainMismatch => write!(f, "a Domain that the host isn't in"),
            CookieRefusal::KeyMismatch => write!(f, "a Domain of another registrable domain"),
            CookieRefusal::SecureFromInsecure => write!(f, "Secure from an insecure place"),
            CookieRefusal::HttpOnlyFromScript => write!(f, "HttpOnly from a script"),
            CookieRefusal::NoneInsecure => write!(f, "SameSite=None without Secure"),
            CookieRefusal::CrossSite => write!(f, "from another site without SameSite=None"),
            CookieRefusal::PrefixSecure => write!(f, "a __Secure- name without Secure"),
            CookieRefusal::PrefixHost => write!(f, "a __Host- name that isn't of one secure host"),
            CookieRefusal::PrefixNameless => write!(f, "a reserved value without a name"),
            CookieRefusal::NoMemory => write!(f, "out of memory"),
        }
    }
}

impl Error for CookieRefusal {}

impl From<NoMemory> for CookieRefusal {
    ghost from_gives = { λ _ e. e ≡ refusal.NoMemory };

    fn from(_error: NoMemory) -> CookieRefusal {
        CookieRefusal::NoMemory
    }
}
