//! Streams over memory, and over readers and writers of std. Expected values are written by hand.
//! What has many parts is let go of by `drop`, which the prover takes as one step.
use cd_io::{
    Failed, MemSink, MemSource, ReadSource, Sink, Source, WriteFault, WriteSink, write_all,
};
use std::alloc::Global;
use std::fmt::{Debug, Display};
use std::io;
use std::io::{Read, Write};
use std::process::Abort;

/// Whether a read of at most three bytes has this answer. What it gives is appended.
fn answers(
    rt: &impl Abort,
    source: &mut MemSource,
    got: &mut Vec<u8>,
    answer: Result<usize, Failed>,
) -> bool {
    let mut buf = [0; 3];
    let result = source.read(&mut buf);
    if let Ok(count) = result {
        got.extend_from_slice(&buf[..count]).expect(rt, "memory");
    }
    result == answer
}

/// Whether a source of these bytes, of at most `piece` at a call, whose calls of these numbers fail, gives the bytes by these answers.
fn gives(
    rt: &impl Abort,
    alloc: Global,
    text: &str,
    piece: usize,
    fails: [u64; 2],
    reads: [Result<usize, Failed>; 4],
) -> bool {
    let bytes = text.as_bytes().to_vec(alloc).expect(rt, "memory");
    let fails = fails.to_vec(alloc).expect(rt, "memory");
    let mut source = MemSource::new(bytes, piece.max(1), fails);
    let mut got = Vec::new(alloc);
    let mut holds = true;
    for answer in reads {
        holds = answers(rt, &mut source, &mut got, answer) && holds;
    }
    holds = holds && got.as_slice() == text.as_bytes();
    drop(got);
    drop(source);
    holds
}

#[test]
fn a_source_in_memory_gives_pieces_and_fails_as_it_was_told(rt: HostRuntime) {
    // The bytes, the most that a call gives, the calls that fail, and what four reads of at most three bytes answer.
    let table = [
        ("abcde", 2, [9, 9], [Ok(2), Ok(2), Ok(1), Ok(0)]),
        ("abcde", 5, [9, 9], [Ok(3), Ok(2), Ok(0), Ok(0)]),
        ("abcde", 5, [2, 0], [Err(Failed), Ok(3), Err(Failed), Ok(2)]),
        ("", 1, [1, 9], [Ok(0), Err(Failed), Ok(0), Ok(0)]),
    ];
    for (text, piece, fails, reads) in table {
        assert!(rt;
            gives(&rt, rt.alloc(), text, piece, fails, reads),
            "{text} by {piece}"
        );
    }
}

#[test]
fn a_full_sink_keeps_what_fits_and_tells_of_the_fault(rt: HostRuntime) {
    let alloc = rt.alloc();
    let mut sink = MemSink::new(alloc, 3, 2, Vec::new(alloc)).expect(&rt, "memory");
    assert!(rt; write_all(&mut sink, b"abcd") == Err(WriteFault));
    assert!(rt; sink.bytes() == b"abc".as_slice());
    drop(sink);
}

#[test]
fn all_that_is_left_is_handed_on_so_two_calls_write_four_bytes(rt: HostRuntime) {
    let alloc = rt.alloc();
    let fails = vec![in alloc; 2].expect(&rt, "memory");
    let mut sink = MemSink::new(alloc, 4, 2, fails).expect(&rt, "memory");
    assert!(rt; write_all(&mut sink, b"abcd") == Ok(()));
    assert!(rt; sink.finish() == Err(Failed), "the call with the number 2");
    assert!(rt; sink.finish() == Ok(()));
    drop(sink);
}

#[test]
fn a_writer_of_std_gets_the_bytes(rt: HostRuntime) {
    let mut bytes = Vec::new(rt.alloc());
    let mut sink = WriteSink::new(&mut bytes);
    assert!(rt; write_all(&mut sink, b"ab") == Ok(()));
    assert!(rt; write_all(&mut sink, b"c") == Ok(()));
    assert!(rt; sink.finish() == Ok(()));
    assert!(rt; bytes.as_slice() == b"abc".as_slice());
    drop(bytes);
}

/// Whether the error says this.
fn says(rt: &impl Abort, alloc: Global, error: &impl Display, text: &str) -> bool {
    let shown = format!(in alloc; "{error}").expect(rt, "memory");
    let holds = shown.as_str() == text;
    drop(shown);
    holds
}

#[test]
fn errors_say_what_failed(rt: HostRuntime) {
    assert!(rt; says(&rt, rt.alloc(), &Failed, "reading or writing failed"));
    assert!(rt; says(&rt, rt.alloc(), &WriteFault, "writing failed"));
}

/// One of std's readers or writers, of which the call with the number `fails` fails. Calls are numbered from 0.
#[derive(Debug, Drop)]
struct FailsOnce<T> {
    stream: T,
    fails: u8,
    calls: u8,
}

impl<T> FailsOnce<T> {
    fn new(stream: T, fails: u8) -> FailsOnce<T> {
        FailsOnce {
            stream,
            fails,
            calls: 0,
        }
    }

    /// Counts the call, and fails where it is the one that is to fail.
    fn count(&mut self) -> io::Result<()> {
        let number = self.calls;
        self.calls = self.calls.saturating_add(1);
        if number == self.fails {
            return Err(io::Error::from(io::ErrorKind::Other));
        }
        Ok(())
    }
}

impl<T: Read> Read for FailsOnce<T> {
    fn read(&mut self, buf: &mut [u8]) -> io::Result<usize> {
        self.count()?;
        self.stream.read(buf)
    }
}

impl<T: Write> Write for FailsOnce<T> {
    fn write(&mut self, buf: &[u8]) -> io::Result<usize> {
        self.count()?;
        self.stream.write(buf)
    }

    fn flush(&mut self) -> io::Result<()> {
        self.count()?;
        self.stream.flush()
    }
}

/// Whether the adapter's flag and its count of faults are shown like this.
fn ends(rt: &impl Abort, alloc: Global, adapter: &impl Debug, text: &str) -> bool {
    let shown = format!(in alloc; "{adapter:?}").expect(rt, "memory");
    let holds = shown.as_bytes().ends_with(text.as_bytes());
    drop(shown);
    holds
}

#[test]
fn a_reader_of_std_is_read_to_its_end_and_a_failing_read_is_told_and_counted(rt: HostRuntime) {
    let mut source = ReadSource::new(FailsOnce::new(b"abc".as_slice(), 1));
    let mut buf = [0; 2];
    assert!(rt; source.read(&mut buf) == Ok(2));
    assert!(rt; buf.as_slice() == b"ab".as_slice());
    assert!(rt; source.read(&mut buf) == Err(Failed));
    assert!(rt; ends(&rt, rt.alloc(), &source, "ended: false, faults: 1 }"));
    assert!(rt; source.read(&mut buf) == Ok(1));
    assert!(rt; buf.as_slice() == b"cb".as_slice());
    assert!(rt; source.read(&mut buf) == Ok(0));
    assert!(rt; ends(&rt, rt.alloc(), &source, "ended: true, faults: 1 }"));
}

#[test]
fn a_failing_write_of_std_is_told_and_counted_and_the_next_goes_on(rt: HostRuntime) {
    let mut bytes = Vec::new(rt.alloc());
    let mut sink = WriteSink::new(FailsOnce::new(&mut bytes, 1));
    assert!(rt; sink.write(b"ab") == Ok(2));
    assert!(rt; sink.write(b"c") == Err(Failed));
    assert!(rt; ends(&rt, rt.alloc(), &sink, "finished: false, faults: 1 }"));
    assert!(rt; sink.write(b"c") == Ok(1));
    assert!(rt; ends(&rt, rt.alloc(), &sink, "finished: false, faults: 1 }"));
    assert!(rt; bytes.as_slice() == b"abc".as_slice());
    drop(bytes);
}

#[test]
fn a_writer_of_std_is_finished_once_its_flush_succeeds(rt: HostRuntime) {
    let mut bytes = Vec::new(rt.alloc());
    let mut sink = WriteSink::new(FailsOnce::new(&mut bytes, 0));
    assert!(rt; sink.finish() == Err(Failed));
    assert!(rt; ends(&rt, rt.alloc(), &sink, "finished: false, faults: 1 }"));
    assert!(rt; sink.finish() == Ok(()));
    assert!(rt; ends(&rt, rt.alloc(), &sink, "finished: true, faults: 1 }"));
    drop(bytes);
}
