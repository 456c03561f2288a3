ghost use Rattle.std.specs.Prelude.{◌≡◌, ◌<◌, ◌≤◌, ◌↔◌, Some, [], ◌++◌, length, take, IsErr, IfOk, OnErr};
ghost use Rattle.std.specs.Io.KnownBytes.{WriteAppends};
ghost use Rattle.outside.specs.Count.{next_count, Rose};
ghost use Rattle.outside.specs.SinkInMemory.{count_taken, IsFullFor};

use crate::sink::{Sink, SinkFailed};
use std::alloc::{AllocError, Global};
use std::marker::Model;

/// A sink in memory that tells its bytes. It takes all its memory when it is made.
#[derive(Drop)]
pub struct MemSink {
    bytes: Vec<u8>,
    per_write: usize,
    room: usize,
    faults: u64,
}

impl Model for MemSink {
    ghost use Rattle.std.specs.Prelude.{◌<◌, ◌≤◌, vec_len, vec_capacity};
    ghost use Rattle.outside.specs.SinkInMemory.{MemorySink};

    ghost Value = { MemorySink };

    ghost view = { λ s. record {
      bytes = s.bytes.items;
      per_write = s.per_write;
      room = s.room;
      faults = s.faults;
    } };

    ghost invariant = { λ s. (0 < s.per_write)
        × ((vec_len s.bytes ≤ s.room) × (s.room ≤ vec_capacity s.bytes)) };
}

impl MemSink {
    /// An empty sink of `room` bytes in all, of which a write takes at most `take`. The only error is
    /// that there is no memory for so many bytes.
    pub fn new(alloc: Global, take: usize, room: usize) -> Result<MemSink, AllocError>
        requires { 0 < take }
        ensures { IfOk result (λ s. s ≡ record {
          bytes = [];
          per_write = take;
          room = room;
          faults = 0;
        }) }
    {
        Ok(MemSink {
            bytes: Vec::with_capacity(alloc, room)?,
            per_write: take,
            room,
            faults: 0,
        })
    }

    /// Lowers the room to `bytes` bytes in all, those that were written included.
    pub fn stop_after(&mut self, bytes: usize)
        requires written { length self.old.bytes ≤ bytes }
        requires lower { bytes ≤ self.old.room }
        ensures { self.new ≡ record self.old { room = bytes } }
    {
        self.room = bytes;
    }

    /// The bytes written so far.
    pub fn contents(&self) -> &[u8]
        ensures { result.now ≡ self.now.bytes }
    {
        self.bytes.as_slice()
    }
}

impl Sink for MemSink {
    ghost use Rattle.std.specs.Prelude.{Some};

    ghost contents = { λ s. Some s.bytes };

    ghost faults = { λ s. s.faults };

    /// Takes the least of the bytes of one write, the piece and the room that is left. It fails where
    /// the piece has bytes and no room is left.
    fn write(&mut self, piece: &[u8]) -> Result<usize, SinkFailed>
        // What every sink keeps.
        ensures bound { IfOk result (λ n. n ≤ length piece.now) }
        ensures taken { IfOk result (λ n. 0 < length piece.now → 0 < n) }
        ensures bytes { WriteAppends (Some self.old.bytes) (Some self.new.bytes) result piece.now }
        ensures later { self.old.faults ≤ self.new.faults }
        ensures failed { OnErr result (Rose self.old.faults self.new.faults) }

        // Exactly what this one does.
        ensures full { IsErr result ↔ IsFullFor self.old piece.now }
        ensures count { IfOk result (λ n. n ≡ count_taken self.old piece.now) }
        ensures ok { IfOk result (λ n. self.new ≡ record self.old {
          bytes = self.old.bytes ++ take n piece.now;
        }) }
        ensures err { OnErr result (self.new ≡ record self.old {
          faults = next_count self.old.faults;
        }) }
    {
        let left = self.room - self.bytes.len();
        if left == 0 && !piece.is_empty() {
            self.faults = self.faults.saturating_add(1);
            return Err(SinkFailed);
        }
        let taken = self.per_write.min(piece.len()).min(left);
        match self.bytes.extend_from_slice(&piece[..taken]) {
            Ok(()) => Ok(taken),
            Err(_) => unreachable!(),
        }
    }
}
