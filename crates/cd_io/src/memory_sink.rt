ghost use Rattle.std.specs.Prelude.{◌≡◌, ◌≤◌, ◌↔◌, ◌⊎◌, ◌-◌, [], Some, length, min, IfOk, IsErr, Contains, true, false, if◌then◌else◌, is_ok};
ghost use Rattle.std.specs.Io.{ReadsAtMost};
ghost use Rattle.std.specs.Io.KnownBytes.{WriteAppends, Keeps};
ghost use Rattle.cd_io.specs.Causes.{HasCause, raised, count_after};
ghost use Rattle.cd_io.specs.Streams.{TakesSome};

use crate::streams::{Failed, Sink};
use cd_base::Memory;
use std::alloc::Global;
use std::marker::Model;

/// Room in memory that takes a piece at a time, for trying how a writer bears short and failing writes.
#[derive(Debug, Drop)]
pub struct MemSink {
    bytes: Vec<u8>,
    at: usize,
    piece: usize,
    fails: Vec<u64>,
    calls: u64,
    finished: bool,
    faults: u64,
}

impl Model for MemSink {
    ghost use Rattle.std.specs.Prelude.{◌≤◌, take, vec_len};
    ghost use Rattle.cd_io.specs.Memory.{Writing};

    ghost Value = { Writing };

    ghost view = { λ s. record {
      written = take s.at s.bytes.items;
      room = vec_len s.bytes;
      piece = s.piece;
      fails = s.fails.items;
      calls = s.calls;
      finished = s.finished;
      faults = s.faults;
    } };

    ghost invariant = { λ s. (s.at ≤ vec_len s.bytes) × (1 ≤ s.piece) };
}

impl MemSink {
    /// A sink with room for `room` bytes, of which a call takes at most `piece`. Calls of `write` and `finish` are numbered
    /// together from 0, and those whose numbers are in `fails` fail. Reserves the room, and is linear in it.
    pub fn new(alloc: Global, room: usize, piece: usize, fails: Vec<u64>) -> Result<MemSink, Memory>
        requires { 1 ≤ piece }
        ensures { IfOk result (λ sink. sink ≡ record {
          written = [];
          room = room;
          piece = piece;
          fails = fails.items;
          calls = 0;
          finished = false;
          faults = 0;
        }) }
    {
        let bytes = vec![in alloc; 0; room]?;
        Ok(MemSink {
            bytes,
            at: 0,
            piece,
            fails,
            calls: 0,
            finished: false,
            faults: 0,
        })
    }

    /// What was written. Constant time.
    pub fn bytes(&self) -> &[u8]
        ensures { result.now ≡ self.now.written }
    {
        &self.bytes[..self.at]
    }
}

impl Sink for MemSink {
    ghost written = { λ s. Some s.written };

    ghost finished = { λ s. s.finished };

    ghost faults = { λ s. s.faults };

    /// Linear in the bytes that it takes and in the length of `fails`.
    fn write(&mut self, piece: &[u8]) -> Result<usize, Failed>
        ensures bound { ReadsAtMost result piece.now }
        ensures some { TakesSome piece.now result }
        ensures bytes { WriteAppends (Some self.old.written)
            (Some self.new.written) result piece.now }
        ensures finished { self.new.finished ≡ false }
        ensures cause { HasCause self.old.faults self.new.faults result }

        // It fails exactly as it was told or when the room is full, and else takes as much as fits.
        ensures fails { IsErr result
            ↔ (Contains self.old.fails self.old.calls ⊎ (length self.old.written ≡ self.old.room)) }
        ensures takes { IfOk result (λ n. n
            ≡ min (length piece.now) (min self.old.piece
            (self.old.room - length self.old.written))) }

        // It counts each call and each failure, and stays told as it was.
        ensures counted { self.new.calls ≡ raised self.old.calls }
        ensures faults { self.new.faults ≡ count_after self.old.faults result }
        ensures room { self.new.room ≡ self.old.room }
        ensures piece { self.new.piece ≡ self.old.piece }
        ensures told { self.new.fails ≡ self.old.fails }
    {
        let number = self.calls;
        self.calls = self.calls.saturating_add(1);
        self.finished = false;
        if self.fails.contains(&number) || self.at == self.bytes.len() {
            self.faults = self.faults.saturating_add(1);
            return Err(Failed);
        }
        let count = piece.len().min(self.piece).min(self.bytes.len() - self.at);
        let end = self.at + count;
        self.bytes[self.at..end].copy_from_slice(&piece[..count]);
        self.at = end;
        Ok(count)
    }

    /// Linear in the length of `fails`.
    fn finish(&mut self) -> Result<(), Failed>
        ensures bytes { Keeps (Some self.old.written) (Some self.new.written) }
        ensures finished { self.new.finished ≡ (if is_ok result then true else self.old.finished) }
        ensures cause { HasCause self.old.faults self.new.faults result }

        // It fails exactly as it was told.
        ensures fails { IsErr result ↔ Contains self.old.fails self.old.calls }

        // It counts each call and each failure, and stays told as it was.
        ensures counted { self.new.calls ≡ raised self.old.calls }
        ensures faults { self.new.faults ≡ count_after self.old.faults result }
        ensures room { self.new.room ≡ self.old.room }
        ensures piece { self.new.piece ≡ self.old.piece }
        ensures told { self.new.fails ≡ self.old.fails }
    {
        let number = self.calls;
        self.calls = self.calls.saturating_add(1);
        if self.fails.contains(&number) {
            self.faults = self.faults.saturating_add(1);
            return Err(Failed);
        }
        self.finished = true;
        Ok(())
    }
}
