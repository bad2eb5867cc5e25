//! What asks for cookies.

ghost use Rattle.std.specs.Prelude.{◌≡◌, IfOk};

use jar_values::{NoMemory, Text};
use std::alloc::Global;

/// For how many milliseconds after its creation a cookie without SameSite goes along with an unsafe navigation.
///
/// This jar's own rule, after the 6265bis draft, section 5.6.7.2: docs/DEFINITIONS.md.
pub const UNSAFE_GRACE: u64 = 120_000;

/// How a request stands to the site that it is made for.
///
/// This jar's own rule, after the 6265bis draft, section 5.2: docs/DEFINITIONS.md.
#[derive(Clone, Copy, Debug, PartialEq, Eq)]
pub enum Context {
    Strict,
    Lax,
    LaxUnsafe,
    Cross,
}

/// A request for cookies.
///
/// `key` is the registrable domain of `host`, `secure` says whether the connection is, and `script` whether a
/// script asks and not HTTP.
///
/// RFC 6265, section 5.4.
#[derive(Drop)]
pub struct Request {
    pub key: Text,
    pub host: Text,
    pub path: Text,
    pub secure: bool,
    pub script: bool,
    pub context: Context,
}

impl Request {
    /// The same request again.
    pub fn copy(&self, alloc: Global) -> Result<Request, NoMemory>
        ensures { IfOk result (λ request. request ≡ self.now) }
    {
        Ok(Request {
            key: self.key.copy(alloc)?,
            host: self.host.copy(alloc)?,
            path: self.path.copy(alloc)?,
            secure: self.secure,
            script: self.script,
            context: self.context,
        })
    }
}
