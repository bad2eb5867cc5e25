//! Places.

ghost use Rattle.std.specs.Prelude.{◌≡◌, ◌<◌, length, IfOk};
ghost use Rattle.site_match.specs.declared.place.PlaceRefusal.TheVariants as refusal;
ghost use Rattle.site_match.specs.Places.{PlacesUrl, ReadsPlace, IsSoundPlace, begins_with_dot};

use crate::scheme::Scheme;
use jar_values::{NoMemory, TEXT_END, Text};
use public_suffix::Suffixes;
use std::alloc::Global;
use std::error::Error;
use std::fmt;
use url::{ParseError, Url};

/// Why a text is no place.
#[derive(Clone, Copy, Debug, PartialEq, Eq)]
pub enum PlaceRefusal {
    /// The URL Standard's parser fails.
    BadUrl,
    /// Its scheme is none of http, https, ws and wss.
    Scheme,
    /// Its host begins with a dot.
    DotHost,
    /// Memory was wanting.
    NoMemory,
}

impl fmt::Display for PlaceRefusal {
    fn fmt<W: fmt::Write>(&self, f: &mut fmt::Formatter<W>) -> fmt::Result {
        match self {
            PlaceRefusal::BadUrl => write!(f, "no URL"),
            PlaceRefusal::Scheme => write!(f, "a scheme without cookies"),
            PlaceRefusal::DotHost => write!(f, "a host that begins with a dot"),
            PlaceRefusal::NoMemory => write!(f, "out of memory"),
        }
    }
}

impl Error for PlaceRefusal {}

impl From<NoMemory> for PlaceRefusal {
    ghost from_gives = { λ _ e. e ≡ refusal.NoMemory };

    fn from(_error: NoMemory) -> PlaceRefusal {
        PlaceRefusal::NoMemory
    }
}

/// What cookies need of a URL: its host as the URL Standard writes it, its port, its path without
/// query and fragment, and the registrable domain of the host.
///
/// The URL Standard, section 4.1.
#[derive(Drop)]
pub struct Place {
    pub scheme: Scheme,
    pub host: Text,
    pub port: u16,
    pub path: Text,
    pub key: Text,
}

impl Place {
    /// The place of a URL, whose key is by the list of suffix rules.
    ///
    /// It is refused as `BadUrl` exactly where the URL Standard's parser fails, else as `Scheme`
    /// where the scheme is another, else as `DotHost` where the host begins with a dot.
    ///
    /// The URL Standard, section 4.4; the last refusal is this jar's own rule: docs/DEFINITIONS.md.
    pub fn read(alloc: Global, suffixes: &Suffixes, text: &str) -> Result<Place, PlaceRefusal>
        requires { length text.now < TEXT_END }
        ensures reads { ReadsPlace suffixes.now text.now result }
        ensures sound { IfOk result IsSoundPlace }
    {
        match Url::parse(alloc, text) {
            Ok(url) => place_of(alloc, suffixes, &url),
            Err(ParseError::OutOfMemory) | Err(ParseError::Overflow) => {
                Err(PlaceRefusal::NoMemory)
            }
            Err(_) => Err(PlaceRefusal::BadUrl),
        }
    }

    /// The same place again.
    pub fn copy(&self, alloc: Global) -> Result<Place, NoMemory>
        ensures { IfOk result (λ place. place ≡ self.now) }
    {
        Ok(Place {
            scheme: self.scheme,
            host: self.host.copy(alloc)?,
            port: self.port,
            path: self.path.copy(alloc)?,
            key: self.key.copy(alloc)?,
        })
    }
}

/// The place of a parsed URL.
fn place_of(alloc: Global, suffixes: &Suffixes, url: &Url) -> Result<Place, PlaceRefusal>
    ensures { PlacesUrl suffixes.now url.now result }
{
    let Some(scheme) = Scheme::of(url.scheme()) else {
        return Err(PlaceRefusal::Scheme);
    };
    let host = url.host_str().unwrap_or("");
    if is_dot_host(host) {
        return Err(PlaceRefusal::DotHost);
    }
    Ok(Place {
        scheme,
        host: Text::of(alloc, host)?,
        port: url.port().unwrap_or(scheme.default_port()),
        path: Text::of(alloc, url.path())?,
        key: Text::of(alloc, suffixes.key(host))?,
    })
}

/// Whether a host begins with a dot.
fn is_dot_host(host: &str) -> bool
    ensures { result ≡ begins_with_dot host.now }
{
    host.starts_with(".")
}
