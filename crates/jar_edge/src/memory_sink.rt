//! A sink in memory.

ghost use Rattle.std.specs.Prelude.{◌≡◌, ◌≤◌, ◌↔◌, [], IfOk, OnErr, IsErr, MatchResult};
ghost use Rattle.std.specs.Prelude.{length, take};
ghost use Rattle.std.specs.Io.{WritesAtMost};
ghost use Rattle.jar_edge.specs.Faults.{Rose, CountsTaken};
ghost use Rattle.jar_edge.specs.MemorySink.{IsWriteFailing, taken_count, after_write, after_write_fault};
ghost use Rattle.jar_edge.specs.MemorySink.{sink_told};
ghost use Rattle.jar_edge.specs.Told.{Takes};

use crate::memory::NoMemory;
use crate::sink::Sink;
use crate::source::Failed;
use std::alloc::Global;
use std::marker::Model;

/// A sink of bytes in memory.
///
/// A write takes `piece` bytes at most, and fails exactly where its number is among those that fail
/// or there is no room for any byte of it.
///
/// This jar's own rule: docs/DEFINITIONS.md.
#[derive(Drop)]
pub struct MemSink {
    bytes: Vec<u8>,
    room: usize,
    piece: usize,
    failing: Vec<u64>,
    calls: u64,
    faults: u64,
}

impl Model for MemSink {
    ghost use Rattle.std.specs.Prelude.{◌≤◌, ◌+◌, vec_len};
    ghost use Rattle.std.specs.Vec.{vec_capacity};
    ghost use Rattle.jar_edge.specs.MemorySink.{MemoryOutput};

    ghost Value = { MemoryOutput };

    ghost view = { λ s. record {
      written = s.bytes.items;
      room = s.room;
      piece = s.piece;
      failing = s.failing.items;
      calls = s.calls;
      faults = s.faults;
    } };

    ghost invariant = { λ s. (vec_len s.bytes + s.room ≤ vec_capacity s.bytes) × (1 ≤ s.piece) };
}

impl MemSink {
    /// A sink with room for `room` bytes, whose writes take `piece` bytes at most and fail at these
    /// numbers.
    pub fn of(
        alloc: Global,
        room: usize,
        piece: usize,
        failing: Vec<u64>,
    ) -> Result<MemSink, NoMemory>
        requires { 1 ≤ piece }
        ensures { IfOk result (λ sink. sink ≡ record {
          written = [];
          room = room;
          piece = piece;
          failing = failing.items;
          calls = 0;
          faults = 0;
        }) }
    {
        Ok(MemSink {
            bytes: Vec::with_capacity(alloc, room)?,
            room,
            piece,
            failing,
            calls: 0,
            faults: 0,
        })
    }

    /// The bytes that were written.
    pub fn written(&self) -> &[u8]
        ensures { result.now ≡ self.now.written }
    {
        &self.bytes
    }
}

impl Sink for MemSink {
    ghost told = { sink_told };

    fn write(&mut self, piece: &[u8]) -> Result<usize, Failed>
        ensures bound { WritesAtMost result piece.now }
        ensures bytes { Takes (sink_told self.old) (sink_told self.new) result piece.now }
        ensures count { MatchResult result
            (λ n. CountsTaken self.old.faults self.new.faults n (length piece.now))
            (λ _. Rose self.old.faults self.new.faults) }

        ensures taken { IfOk result (λ n. (n ≡ taken_count self.old (length piece.now))
            × (self.new ≡ after_write self.old (take n piece.now))) }
        ensures failed { (IsErr result ↔ IsWriteFailing self.old (length piece.now))
            × OnErr result (self.new ≡ after_write_fault self.old) }
    {
        self.calls = self.calls.saturating_add(1);
        if self.failing.contains(&self.calls) || (self.room == 0 && !piece.is_empty()) {
            self.faults = self.faults.saturating_add(1);
            return Err(Failed);
        }
        let n = piece.len().min(self.piece.min(self.room));
        self.bytes.extend_from_slice(&piece[..n]).unwrap();
        self.room -= n;
        Ok(n)
    }
}
