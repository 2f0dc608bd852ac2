ghost use Rattle.std.specs.Prelude.{◌≡◌, ℕ, Bool, true, false, List, Option, if◌then◌else◌, is_ok};
ghost use Rattle.std.specs.Io.{ReadsAtMost};
ghost use Rattle.std.specs.Io.KnownBytes.{ReadConsumes, WriteAppends, Keeps};
ghost use Rattle.cd_io.specs.Causes.{HasCause};
ghost use Rattle.cd_io.specs.Streams.{TellsEnd, KeepsEnd, TakesSome, KeepsAtOk};

use thiserror::Error;

/// A read, a write or a `finish` did not succeed. The stream's count of faults has risen.
#[derive(Clone, Copy, Debug, PartialEq, Eq, Error)]
#[error("reading or writing failed")]
pub struct Failed;

/// A write failed before all bytes were out. The sink's count of faults has risen.
#[derive(Clone, Copy, Debug, PartialEq, Eq, Error)]
#[error("writing failed")]
pub struct WriteFault;

/// Bytes to read, from the first to the last.
pub trait Source {
    /// The bytes still to come, where it tells them.
    ghost left: { Self → Option (List ℕ) };

    /// The bytes behind these, where it tells them. No read that answers Ok changes them.
    ghost after: { Self → Option (List ℕ) };

    /// Whether the last read of a non-empty buffer answered 0.
    ghost ended: { Self → Bool };

    /// How many reads have failed. The count never falls, and may stay at the last u64.
    ghost faults: { Self → ℕ };

    /// Reads some bytes to the front of the buffer, and answers how many. With room for a byte, 0 tells the end.
    ///
    /// `Failed` has taken nothing of what is left, and a later read may succeed.
    fn read(&mut self, buf: &mut [u8]) -> Result<usize, Failed>
        ensures bound { ReadsAtMost result buf.new }
        ensures bytes { ReadConsumes (left self.old) (left self.new) result buf.new }
        ensures after { KeepsAtOk (after self.old) (after self.new) result }
        ensures ended { TellsEnd buf.new result (ended self.new) }
        ensures ended_stays { KeepsEnd buf.new (ended self.old) (ended self.new) }
        ensures cause { HasCause (faults self.old) (faults self.new) result };
}

/// A place for bytes, which come out in the order of the writes.
pub trait Sink {
    /// What was written, where it tells that.
    ghost written: { Self → Option (List ℕ) };

    /// Whether a `finish` answered Ok and no `write` came since.
    ghost finished: { Self → Bool };

    /// How many calls have failed. The count never falls, and may stay at the last u64.
    ghost faults: { Self → ℕ };

    /// Writes a front of the piece, and answers of how many bytes: at least one, unless the piece is empty.
    ///
    /// `Failed` has written nothing, and a later write may succeed.
    fn write(&mut self, piece: &[u8]) -> Result<usize, Failed>
        ensures bound { ReadsAtMost result piece.now }
        ensures some { TakesSome piece.now result }
        ensures bytes { WriteAppends (written self.old) (written self.new) result piece.now }
        ensures finished { finished self.new ≡ false }
        ensures cause { HasCause (faults self.old) (faults self.new) result };

    /// Hands on all that was written, to where it is to lie in the end. It writes nothing itself.
    ///
    /// `Failed` says that some of it may not have come there.
    fn finish(&mut self) -> Result<(), Failed>
        ensures bytes { Keeps (written self.old) (written self.new) }
        ensures finished { finished self.new ≡ (if is_ok result then true else finished self.old) }
        ensures cause { HasCause (faults self.old) (faults self.new) result };
}
