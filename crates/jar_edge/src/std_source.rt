//! A source over a reader of std.

use crate::history::History;
use crate::source::{Failed, Source};
use std::io::Read;
use std::marker::Model;

/// A source over a reader of std, which knows what is left where the reader does: of standard input
/// it tells its history alone.
///
/// Each error is a fault, that of a call which a signal interrupted too.
///
/// This jar's own rule: docs/DEFINITIONS.md.
#[derive(Drop)]
pub struct StdSource<R: Read> {
    inner: R,
    passed: History,
    faults: u64,
}

impl<R: Read> Model for StdSource<R> {
    ghost use Rattle.jar_edge.specs.Adapted.{AdaptedReader, reader_code};

    ghost Value = { AdaptedReader R };

    ghost coded = { reader_code R.code };

    ghost view = { λ s. record {
      inner = s.inner;
      given = s.passed.bytes;
      ended = s.passed.ended;
      faults = s.faults;
    } };
}

impl<R: Read> StdSource<R> {
    ghost use Rattle.std.specs.Prelude.{◌≡◌, false, []};

    /// A source over this reader.
    pub fn of(inner: R) -> StdSource<R>
        ensures { result ≡ record { inner = inner; given = []; ended = false; faults = 0 } }
    {
        StdSource {
            inner,
            passed: History::new(),
            faults: 0,
        }
    }
}

impl<R: Read> Source for StdSource<R> {
    ghost told = { λ s. record {
      given = s.given;
      ended = s.ended;
      faults = s.faults;
      left = R.remaining s.inner;
    } };

    fn read(&mut self, buf: &mut [u8]) -> Result<usize, Failed> {
        match self.inner.read(buf) {
            Ok(n) => {
                self.passed.note(buf, n);
                Ok(n)
            }
            Err(_) => {
                self.faults = self.faults.saturating_add(1);
                Err(Failed)
            }
        }
    }
}
