//! Schemes.

ghost use Rattle.std.specs.Prelude.{◌≡◌};
ghost use Rattle.site_match.specs.Schemes as spec;
ghost use Rattle.site_match.specs.Schemes.{scheme_of};

/// A scheme that cookies are kept for.
///
/// The URL Standard, section 4.2.
#[derive(Clone, Copy, Debug, PartialEq, Eq)]
pub enum Scheme {
    Http,
    Https,
    Ws,
    Wss,
}

impl Scheme {
    /// The scheme of a name; none for any other.
    pub fn of(name: &str) -> Option<Scheme>
        ensures { result ≡ scheme_of name.now }
    {
        match name {
            "http" => Some(Scheme::Http),
            "https" => Some(Scheme::Https),
            "ws" => Some(Scheme::Ws),
            "wss" => Some(Scheme::Wss),
            _ => None,
        }
    }

    /// The port of a URL of this scheme that names none.
    pub fn default_port(self) -> u16
        ensures { result ≡ spec.default_port self }
    {
        match self {
            Scheme::Http | Scheme::Ws => 80,
            Scheme::Https | Scheme::Wss => 443,
        }
    }

    /// Whether its connections are secure.
    pub fn is_secure(self) -> bool
        ensures { result ≡ spec.is_secure self }
    {
        match self {
            Scheme::Http | Scheme::Ws => false,
            Scheme::Https | Scheme::Wss => true,
        }
    }
}
