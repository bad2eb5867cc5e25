//! Moments.

ghost use Rattle.std.specs.Prelude.{◌≡◌, ◌≤◌, ◌<◌, IfSome, IfNone};

use std::marker::Model;

/// The last moment, in milliseconds since 1970: the end of the year 9999.
///
/// This jar's own rule: docs/DEFINITIONS.md.
pub const MAX_MOMENT: u64 = 253_402_300_799_999;

/// A moment: whole milliseconds since 1970, from 0 to [`MAX_MOMENT`], seen as that number.
///
/// This jar's own rule: docs/DEFINITIONS.md.
#[derive(Clone, Copy, Debug, PartialEq, Eq, PartialOrd, Ord)]
pub struct Moment {
    ms: u64,
}

impl Model for Moment {
    ghost use Rattle.std.specs.Prelude.{ℕ, ◌≤◌};
    ghost use Rattle.jar_values.specs.declared.moment.TheConstants.{MAX_MOMENT};

    ghost Value = { ℕ };

    ghost view = { λ m. m.ms };

    ghost invariant = { λ m. m.ms ≤ MAX_MOMENT };

    ghost inverse = { λ n. record { ms = n } };
}

impl Moment {
    /// The moment of a number of milliseconds since 1970; none above [`MAX_MOMENT`].
    pub fn of(ms: u64) -> Option<Moment>
        ensures some { IfSome result (λ m. (m ≡ ms) × (ms ≤ MAX_MOMENT)) }
        ensures none { IfNone result (MAX_MOMENT < ms) }
    {
        if ms <= MAX_MOMENT {
            Some(Moment { ms })
        } else {
            None
        }
    }

    /// Its milliseconds since 1970.
    pub fn ms(self) -> u64
        ensures value { result ≡ self }
        ensures bound { result ≤ MAX_MOMENT }
    {
        self.ms
    }
}
