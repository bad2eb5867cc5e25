//! Cookies and their ids.

ghost use Rattle.std.specs.Prelude.{◌≡◌, IfOk};
ghost use Rattle.jar_types.specs.Ids.{id_cmp};

use jar_values::{Copied, Listed, Moment, NoMemory, Priority, SameSite, Text};
use std::alloc::Global;
use std::cmp::Ordering;

/// The id of a cookie, in the order of host, name and path, each by its bytes.
///
/// The 6265bis draft, section 5.7: name, domain, host-only flag and path, of which `host` has the middle two.
#[derive(PartialEq, Eq, PartialOrd, Ord, Drop)]
pub struct CookieId {
    pub host: Text,
    pub name: Text,
    pub path: Text,
}

impl CookieId {
    /// How it stands to another in the order of ids, which is that of `Ord` too.
    ///
    /// This jar's own rule: docs/DEFINITIONS.md.
    pub fn order(&self, other: &CookieId) -> Ordering
        ensures { result ≡ id_cmp self.now other.now }
    {
        self.cmp(other)
    }

    /// The same id again.
    pub fn copy(&self, alloc: Global) -> Result<CookieId, NoMemory>
        ensures { IfOk result (λ id. id ≡ self.now) }
    {
        Ok(CookieId {
            host: self.host.copy(alloc)?,
            name: self.name.copy(alloc)?,
            path: self.path.copy(alloc)?,
        })
    }
}

/// A cookie.
///
/// `key` is the registrable domain that it is kept under. `host` is the host of a host-only cookie, else `.` and
/// its domain. A cookie without an `expiry` is a session cookie.
///
/// RFC 6265, section 5.3.
#[derive(Drop)]
pub struct Cookie {
    pub key: Text,
    pub host: Text,
    pub name: Text,
    pub path: Text,
    pub value: Text,
    pub creation: Moment,
    pub access: Moment,
    pub expiry: Option<Moment>,
    pub secure: bool,
    pub http_only: bool,
    pub same_site: SameSite,
    pub priority: Priority,
}

/// Cookies, seen as their list.
pub type Cookies = Listed<Cookie>;

impl Cookie {
    /// The same cookie again.
    pub fn copy(&self, alloc: Global) -> Result<Cookie, NoMemory>
        ensures { IfOk result (λ cookie. cookie ≡ self.now) }
    {
        Ok(Cookie {
            key: self.key.copy(alloc)?,
            host: self.host.copy(alloc)?,
            name: self.name.copy(alloc)?,
            path: self.path.copy(alloc)?,
            value: self.value.copy(alloc)?,
            creation: self.creation,
            access: self.access,
            expiry: self.expiry,
            secure: self.secure,
            http_only: self.http_only,
            same_site: self.same_site,
            priority: self.priority,
        })
    }
}

impl Copied for Cookie {
    fn copied(&self, alloc: Global) -> Result<Cookie, NoMemory> {
        self.copy(alloc)
    }
}
