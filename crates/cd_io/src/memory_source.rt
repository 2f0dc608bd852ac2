ghost use Rattle.std.specs.Prelude.{◌≡◌, ◌≤◌, ◌↔◌, [], ◌++◌, Some, length, min, take, drop, IfOk, IsErr, OnErr, Contains, false};
ghost use Rattle.std.specs.Io.{ReadsAtMost};
ghost use Rattle.std.specs.Io.KnownBytes.{ReadConsumes};
ghost use Rattle.cd_io.specs.Causes.{HasCause, raised, count_after};
ghost use Rattle.cd_io.specs.Streams.{TellsEnd, KeepsEnd, KeepsAtOk};

use crate::streams::{Failed, Source};
use std::marker::Model;

/// Bytes in memory, given a piece at a time, for trying how a reader bears short and failing reads.
#[derive(Debug, Drop)]
pub struct MemSource {
    bytes: Vec<u8>,
    at: usize,
    piece: usize,
    fails: Vec<u64>,
    calls: u64,
    ended: bool,
    faults: u64,
}

impl Model for MemSource {
    ghost use Rattle.std.specs.Prelude.{◌≤◌, drop, vec_len};
    ghost use Rattle.cd_io.specs.Memory.{Reading};

    ghost Value = { Reading };

    ghost view = { λ s. record {
      left = drop s.at s.bytes.items;
      piece = s.piece;
      fails = s.fails.items;
      calls = s.calls;
      ended = s.ended;
      faults = s.faults;
    } };

    ghost invariant = { λ s. (s.at ≤ vec_len s.bytes) × (1 ≤ s.piece) };
}

impl MemSource {
    /// A source of these bytes, of which a call gives at most `piece`. Calls are numbered from 0, and those whose numbers are in
    /// `fails` fail. Takes no memory and constant time.
    pub fn new(bytes: Vec<u8>, piece: usize, fails: Vec<u64>) -> MemSource
        requires { 1 ≤ piece }
        ensures { result ≡ record {
          left = bytes.items;
          piece = piece;
          fails = fails.items;
          calls = 0;
          ended = false;
          faults = 0;
        } }
    {
        MemSource {
            bytes,
            at: 0,
            piece,
            fails,
            calls: 0,
            ended: false,
            faults: 0,
        }
    }

    /// Moves as many bytes as fit to the front of the buffer, and answers how many. Linear in these.
    fn give(&mut self, buf: &mut [u8]) -> usize
        ensures count { result ≡ min (length buf.old) (min self.old.piece (length self.old.left)) }
        ensures buffer { buf.new ≡ take result self.old.left ++ drop result buf.old }
        ensures left { self.new ≡ record self.old { left = drop result self.old.left } }
    {
        let count = buf.len().min(self.piece).min(self.bytes.len() - self.at);
        let end = self.at + count;
        buf[..count].copy_from_slice(&self.bytes[self.at..end]);
        self.at = end;
        count
    }
}

impl Source for MemSource {
    ghost left = { λ s. Some s.left };

    ghost after = { λ _. Some [] };

    ghost ended = { λ s. s.ended };

    ghost faults = { λ s. s.faults };

    /// Linear in the bytes that it gives and in the length of `fails`.
    fn read(&mut self, buf: &mut [u8]) -> Result<usize, Failed>
        ensures bound { ReadsAtMost result buf.new }
        ensures bytes { ReadConsumes (Some self.old.left) (Some self.new.left) result buf.new }
        ensures after { KeepsAtOk (Some []) (Some []) result }
        ensures ended { TellsEnd buf.new result self.new.ended }
        ensures ended_stays { KeepsEnd buf.new self.old.ended self.new.ended }
        ensures cause { HasCause self.old.faults self.new.faults result }

        // It fails exactly as it was told, and else gives as much as fits.
        ensures fails { IsErr result ↔ Contains self.old.fails self.old.calls }
        ensures gives { IfOk result (λ n. n
            ≡ min (length buf.old) (min self.old.piece (length self.old.left))) }
        ensures rest_of_buffer { IfOk result (λ n. drop n buf.new ≡ drop n buf.old) }
        ensures buffer_at_fault { OnErr result (buf.new ≡ buf.old) }

        // It counts each call and each failure, and stays told as it was.
        ensures counted { self.new.calls ≡ raised self.old.calls }
        ensures faults { self.new.faults ≡ count_after self.old.faults result }
        ensures piece { self.new.piece ≡ self.old.piece }
        ensures told { self.new.fails ≡ self.old.fails }
    {
        let number = self.calls;
        self.calls = self.calls.saturating_add(1);
        if self.fails.contains(&number) {
            self.ended = self.ended && buf.is_empty();
            self.faults = self.faults.saturating_add(1);
            return Err(Failed);
        }
        let count = self.give(buf);
        if !buf.is_empty() {
            self.ended = count == 0;
        }
        Ok(count)
    }
}
