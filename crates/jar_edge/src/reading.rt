//! Whole reads.

ghost use Rattle.std.specs.Prelude.{◌≤◌, ◌<◌, IfOk, IfErr, length};
ghost use Rattle.jar_edge.specs.Streams.{GivesToEnd, GivesAtRefusal, CountsReadFault};

use crate::refusal::ReadRefusal;
use crate::source::Source;
use std::alloc::Global;

/// The most bytes that one read is asked for.
///
/// This jar's own rule: docs/DEFINITIONS.md.
pub const MOST_ASKED: usize = 8192;

/// Reads all bytes to the end, of which there may be `limit`.
///
/// Refuses a read that failed, then one byte past the limit, then want of memory. The bytes that
/// were read up to there are consumed then.
///
/// This jar's own rule: docs/DEFINITIONS.md.
pub fn read_whole<S: Source>(
    alloc: Global,
    source: &mut S,
    limit: usize,
) -> Result<Vec<u8>, ReadRefusal>
    requires { limit < usize.MAX }

    ensures whole { IfOk result
        (λ bytes. GivesToEnd (S.told source.old) (S.told source.new) bytes.items) }
    ensures within { IfOk result (λ bytes. length bytes.items ≤ limit) }

    ensures refused { IfErr result (GivesAtRefusal (S.told source.old) (S.told source.new) limit) }
    ensures fault { CountsReadFault (S.told source.old).faults (S.told source.new).faults result }
{
    let mut bytes = Vec::new(alloc);
    let mut chunk = [0; MOST_ASKED];
    while bytes.len() <= limit {
        let most = MOST_ASKED.min(limit + 1 - bytes.len());
        bytes.reserve(most)?;
        let n = source.read(&mut chunk[..most])?;
        if n == 0 {
            return Ok(bytes);
        }
        bytes.extend_from_slice(&chunk[..n]).unwrap();
    }
    Err(ReadRefusal::TooLarge)
}
