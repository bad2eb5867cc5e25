//! A source in memory.

ghost use Rattle.std.specs.Prelude.{◌≡◌, ◌≤◌, ◌↔◌, false, [], IfOk, OnErr, IsErr, length};
ghost use Rattle.std.specs.Io.{ReadsAtMost};
ghost use Rattle.jar_edge.specs.Faults.{CountsRefusal};
ghost use Rattle.jar_edge.specs.MemorySource.{IsReadFailing, given_count, after_read, after_read_fault};
ghost use Rattle.jar_edge.specs.MemorySource.{source_told};
ghost use Rattle.jar_edge.specs.Told.{Gives};

use crate::history::History;
use crate::source::{Failed, Source};
use std::marker::Model;

/// A source of bytes in memory.
///
/// A read gives `piece` bytes at most, and fails exactly where its number is among those that fail.
///
/// This jar's own rule: docs/DEFINITIONS.md.
#[derive(Drop)]
pub struct MemSource {
    bytes: Vec<u8>,
    at: usize,
    piece: usize,
    failing: Vec<u64>,
    calls: u64,
    faults: u64,
    passed: History,
}

impl Model for MemSource {
    ghost use Rattle.std.specs.Prelude.{◌≤◌, drop, length};
    ghost use Rattle.jar_edge.specs.MemorySource.{MemoryInput};

    ghost Value = { MemoryInput };

    ghost view = { λ s. record {
      left = drop s.at s.bytes.items;
      given = s.passed.bytes;
      ended = s.passed.ended;
      piece = s.piece;
      failing = s.failing.items;
      calls = s.calls;
      faults = s.faults;
    } };

    ghost invariant = { λ s. (s.at ≤ length s.bytes.items) × (1 ≤ s.piece) };
}

impl MemSource {
    /// A source of these bytes, whose reads give `piece` bytes at most and fail at these numbers.
    pub fn of(bytes: Vec<u8>, piece: usize, failing: Vec<u64>) -> MemSource
        requires { 1 ≤ piece }
        ensures { result ≡ record {
          left = bytes.items;
          given = [];
          ended = false;
          piece = piece;
          failing = failing.items;
          calls = 0;
          faults = 0;
        } }
    {
        MemSource {
            bytes,
            at: 0,
            piece,
            failing,
            calls: 0,
            faults: 0,
            passed: History::new(),
        }
    }
}

impl Source for MemSource {
    ghost told = { source_told };

    fn read(&mut self, buf: &mut [u8]) -> Result<usize, Failed>
        ensures bound { ReadsAtMost result buf.new }
        ensures bytes { Gives (source_told self.old) (source_told self.new) result buf.new }
        ensures count { CountsRefusal self.old.faults self.new.faults result }

        ensures given { IfOk result (λ n. (n ≡ given_count self.old (length buf.old))
            × (self.new ≡ after_read self.old n (length buf.new))) }
        ensures failed { (IsErr result ↔ IsReadFailing self.old)
            × OnErr result (self.new ≡ after_read_fault self.old) }
    {
        self.calls = self.calls.saturating_add(1);
        if self.failing.contains(&self.calls) {
            self.faults = self.faults.saturating_add(1);
            return Err(Failed);
        }
        let left = &self.bytes[self.at..];
        let n = buf.len().min(self.piece.min(left.len()));
        buf[..n].copy_from_slice(&left[..n]);
        self.at += n;
        self.passed.note(buf, n);
        Ok(n)
    }
}
