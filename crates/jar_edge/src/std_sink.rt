//! A sink over a writer of std.

use crate::history::History;
use crate::sink::Sink;
use crate::source::Failed;
use std::io::Write;
use std::marker::Model;

/// A sink over a writer of std, which knows what is written where the writer does: of standard
/// output it tells its history alone.
///
/// Each error is a fault, that of a call which a signal interrupted too, and so is a write that
/// takes nothing of a piece that isn't empty.
///
/// This jar's own rule: docs/DEFINITIONS.md.
#[derive(Drop)]
pub struct StdSink<W: Write> {
    inner: W,
    passed: History,
    faults: u64,
}

impl<W: Write> Model for StdSink<W> {
    ghost use Rattle.jar_edge.specs.Adapted.{AdaptedWriter, writer_code};

    ghost Value = { AdaptedWriter W };

    ghost coded = { writer_code W.code };

    ghost view = { λ s. record {
      inner = s.inner;
      taken = s.passed.bytes;
      faults = s.faults;
    } };
}

impl<W: Write> StdSink<W> {
    ghost use Rattle.std.specs.Prelude.{◌≡◌, []};

    /// A sink over this writer.
    pub fn of(inner: W) -> StdSink<W>
        ensures { result ≡ record { inner = inner; taken = []; faults = 0 } }
    {
        StdSink {
            inner,
            passed: History::new(),
            faults: 0,
        }
    }
}

impl<W: Write> Sink for StdSink<W> {
    ghost told = { λ s. record {
      taken = s.taken;
      faults = s.faults;
      written = W.contents s.inner;
    } };

    fn write(&mut self, piece: &[u8]) -> Result<usize, Failed> {
        match self.inner.write(piece) {
            Ok(n) => {
                self.passed.note(piece, n);
                if n == 0 && !piece.is_empty() {
                    self.faults = self.faults.saturating_add(1);
                }
                Ok(n)
            }
            Err(_) => {
                self.faults = self.faults.saturating_add(1);
                Err(Failed)
            }
        }
    }
}
