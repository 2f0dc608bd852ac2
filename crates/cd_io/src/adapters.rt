ghost use Rattle.std.specs.Prelude.{◌≡◌, [], Some, true, false, if◌then◌else◌, is_ok};
ghost use Rattle.std.specs.Io.{ReadsAtMost};
ghost use Rattle.std.specs.Io.KnownBytes.{ReadConsumes, WriteAppends, Keeps};
ghost use Rattle.cd_io.specs.Causes.{HasCause, count_after};
ghost use Rattle.cd_io.specs.Streams.{TellsEnd, KeepsEnd, TakesSome, KeepsAtOk};

use crate::streams::{Failed, Sink, Source};
use std::io::{Read, Write};

/// One of std's readers as a source. Of its errors only their count is kept.
#[derive(Debug, Drop)]
pub struct ReadSource<R> {
    reader: R,
    ended: bool,
    faults: u64,
}

impl<R: Read> ReadSource<R> {
    /// A source of the bytes that the reader still has. Takes no memory and constant time.
    pub fn new(reader: R) -> ReadSource<R>
        ensures left { ⟦<ReadSource<R> as Source>⟧.left result ≡ R.remaining reader }
        ensures after { ⟦<ReadSource<R> as Source>⟧.after result ≡ Some [] }
        ensures ended { ⟦<ReadSource<R> as Source>⟧.ended result ≡ false }
        ensures faults { ⟦<ReadSource<R> as Source>⟧.faults result ≡ 0 }
    {
        ReadSource {
            reader,
            ended: false,
            faults: 0,
        }
    }
}

impl<R: Read> Source for ReadSource<R> {
    ghost use Rattle.cd_io.specs.Adapters.{source_reader, source_ended, source_faults};

    ghost left = { λ source. R.remaining (source_reader source) };

    ghost after = { λ _. Some [] };

    ghost ended = { source_ended };

    ghost faults = { source_faults };

    /// One read of the reader's.
    fn read(&mut self, buf: &mut [u8]) -> Result<usize, Failed>
        ensures bound { ReadsAtMost result buf.new }
        ensures bytes { ReadConsumes (R.remaining (source_reader self.old))
            (R.remaining (source_reader self.new)) result buf.new }
        ensures after { KeepsAtOk (Some []) (Some []) result }
        ensures ended { TellsEnd buf.new result (source_ended self.new) }
        ensures ended_stays { KeepsEnd buf.new (source_ended self.old) (source_ended self.new) }
        ensures cause { HasCause (source_faults self.old) (source_faults self.new) result }

        // It counts each failure of the reader's, and nothing else.
        ensures faults { source_faults self.new ≡ count_after (source_faults self.old) result }
    {
        match self.reader.read(buf) {
            Ok(count) => {
                if !buf.is_empty() {
                    self.ended = count == 0;
                }
                Ok(count)
            }
            Err(_) => {
                self.ended = self.ended && buf.is_empty();
                self.faults = self.faults.saturating_add(1);
                Err(Failed)
            }
        }
    }
}

/// One of std's writers as a sink. Of its errors only their count is kept.
#[derive(Debug, Drop)]
pub struct WriteSink<W> {
    writer: W,
    finished: bool,
    faults: u64,
}

impl<W: Write> WriteSink<W> {
    /// A sink that writes behind what the writer holds already. Takes no memory and constant time.
    pub fn new(writer: W) -> WriteSink<W>
        ensures written { ⟦<WriteSink<W> as Sink>⟧.written result ≡ W.contents writer }
        ensures finished { ⟦<WriteSink<W> as Sink>⟧.finished result ≡ false }
        ensures faults { ⟦<WriteSink<W> as Sink>⟧.faults result ≡ 0 }
    {
        WriteSink {
            writer,
            finished: false,
            faults: 0,
        }
    }
}

impl<W: Write> Sink for WriteSink<W> {
    ghost use Rattle.cd_io.specs.Adapters.{sink_writer, sink_finished, sink_faults};

    ghost written = { λ sink. W.contents (sink_writer sink) };

    ghost finished = { sink_finished };

    ghost faults = { sink_faults };

    /// One write of the writer's. A writer that takes nothing of a piece that is not empty has failed.
    fn write(&mut self, piece: &[u8]) -> Result<usize, Failed>
        ensures bound { ReadsAtMost result piece.now }
        ensures some { TakesSome piece.now result }
        ensures bytes { WriteAppends (W.contents (sink_writer self.old))
            (W.contents (sink_writer self.new)) result piece.now }
        ensures finished { sink_finished self.new ≡ false }
        ensures cause { HasCause (sink_faults self.old) (sink_faults self.new) result }

        // It counts each failure of the writer's, and nothing else.
        ensures faults { sink_faults self.new ≡ count_after (sink_faults self.old) result }
    {
        self.finished = false;
        match self.writer.write(piece) {
            Ok(count) if count > 0 || piece.is_empty() => Ok(count),
            _ => {
                self.faults = self.faults.saturating_add(1);
                Err(Failed)
            }
        }
    }

    /// One flush of the writer's.
    fn finish(&mut self) -> Result<(), Failed>
        ensures bytes { Keeps (W.contents (sink_writer self.old))
            (W.contents (sink_writer self.new)) }
        ensures finished { sink_finished self.new
            ≡ (if is_ok result then true else sink_finished self.old) }
        ensures cause { HasCause (sink_faults self.old) (sink_faults self.new) result }

        // It counts each failure of the writer's, and nothing else.
        ensures faults { sink_faults self.new ≡ count_after (sink_faults self.old) result }
    {
        match self.writer.flush() {
            Ok(()) => {
                self.finished = true;
                Ok(())
            }
            Err(_) => {
                self.faults = self.faults.saturating_add(1);
                Err(Failed)
            }
        }
    }
}
