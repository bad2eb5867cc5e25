//! Whole writes.

ghost use Rattle.std.specs.Prelude.{OnOk, OnErr};
ghost use Rattle.jar_edge.specs.Faults.{CountsRefusal};
ghost use Rattle.jar_edge.specs.Streams.{TakesJust, TakesPart};

use crate::sink::Sink;
use crate::source::Failed;
use std::error::Error;
use std::fmt;

/// A write was a fault.
///
/// This jar's own rule: docs/DEFINITIONS.md.
#[derive(Clone, Copy, Debug, PartialEq, Eq)]
pub struct WriteFault;

impl fmt::Display for WriteFault {
    fn fmt<W: fmt::Write>(&self, f: &mut fmt::Formatter<W>) -> fmt::Result {
        write!(f, "a write failed")
    }
}

impl Error for WriteFault {}

impl From<Failed> for WriteFault {
    fn from(_error: Failed) -> WriteFault {
        WriteFault
    }
}

/// Writes all the bytes.
///
/// Refuses where a write is a fault: then a part of the bytes, from their front on, was taken.
///
/// This jar's own rule: docs/DEFINITIONS.md.
#[tactic(auto, using(crate::proofs::StreamLemmas::appended, crate::proofs::StreamLemmas::taken))]
pub fn write_all<O: Sink>(sink: &mut O, bytes: &[u8]) -> Result<(), WriteFault>
    ensures whole { OnOk result (TakesJust (O.told sink.old) (O.told sink.new) bytes.now) }
    ensures part { OnErr result (TakesPart (O.told sink.old) (O.told sink.new) bytes.now) }
    ensures fault { CountsRefusal (O.told sink.old).faults (O.told sink.new).faults result }
{
    let mut done = 0;
    while done < bytes.len() {
        let n = sink.write(&bytes[done..])?;
        if n == 0 {
            return Err(WriteFault);
        }
        done += n;
    }
    Ok(())
}
