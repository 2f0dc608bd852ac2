//! How much is taken of a source that gives as much as it is asked for.
//! What has many parts is let go of by `drop`, which the prover takes as one step.
ghost use Rattle.std.specs.Prelude.{◌≡◌, Some, []};
ghost use Rattle.std.specs.Io.{ReadsAtMost};
ghost use Rattle.std.specs.Io.KnownBytes.{ReadConsumes};
ghost use Rattle.cd_io.specs.Causes.{HasCause};
ghost use Rattle.cd_io.specs.Streams.{TellsEnd, KeepsEnd, KeepsAtOk};

use cd_base::Limits;
use cd_grammar::{ReadRefusal, read_document};
use cd_io::{Failed, MemSource, Source};
use cd_syntax::Refusal;
use std::alloc::Global;
use std::process::Abort;

/// Bytes in memory, and the longest buffer that they were asked for.
#[derive(Debug, Drop)]
struct Asked {
    source: MemSource,
    longest: usize,
}

impl Source for Asked {
    ghost left = { λ asked. Some asked.source.left };

    ghost after = { λ _. Some [] };

    ghost ended = { λ asked. asked.source.ended };

    ghost faults = { λ asked. asked.source.faults };

    fn read(&mut self, buf: &mut [u8]) -> Result<usize, Failed>
        ensures bound { ReadsAtMost result buf.new }
        ensures bytes { ReadConsumes (Some self.old.source.left)
            (Some self.new.source.left) result buf.new }
        ensures after { KeepsAtOk (Some []) (Some []) result }
        ensures ended { TellsEnd buf.new result self.new.source.ended }
        ensures ended_stays { KeepsEnd buf.new self.old.source.ended self.new.source.ended }
        ensures cause { HasCause self.old.source.faults self.new.source.faults result }
    {
        self.longest = self.longest.max(buf.len());
        self.source.read(buf)
    }
}

/// A source that gives as many of these bytes as it is asked for.
fn source_of(alloc: Global, bytes: Vec<u8>) -> Asked {
    Asked {
        source: MemSource::new(bytes, 1_000_000, Vec::new(alloc)),
        longest: 0,
    }
}

/// Whether the source is told as too long by a limit of `most` bytes, after one byte more.
fn is_too_long(alloc: Global, source: &mut Asked, most: u64) -> bool {
    let limits = Limits::with(1, 1, most, 1, 1).unwrap_or(Limits::standard());
    let came = limits.max_bytes + 1;
    let found = read_document(alloc, source, &limits).err();
    found == Some(ReadRefusal::Refused(Refusal::TooLong(came)))
}

/// Whether a limit of `most` bytes has the text told as too long, and what it leaves is just this.
fn leaves(rt: &impl Abort, alloc: Global, text: &str, most: u64, rest: &str) -> bool {
    let bytes = text.as_bytes().to_vec(alloc).expect(rt, "memory");
    let mut source = source_of(alloc, bytes);
    let holds = is_too_long(alloc, &mut source, most);
    let mut buf = [0; 64];
    let left = source.read(&mut buf).expect(rt, "a read");
    drop(source);
    holds && buf.get(..left) == Some(rest.as_bytes())
}

#[test]
fn one_byte_past_the_limit_is_taken_and_no_more(rt: HostRuntime) {
    let text = "Ontology(SubClassOf(<x:A> <x:B>))";
    assert!(rt; leaves(&rt, rt.alloc(), text, 1, "tology(SubClassOf(<x:A> <x:B>))"));
    assert!(rt; leaves(&rt, rt.alloc(), text, 5, "gy(SubClassOf(<x:A> <x:B>))"));
    assert!(rt; leaves(&rt, rt.alloc(), text, 31, ")"));
    assert!(rt; leaves(&rt, rt.alloc(), text, 32, ""));
}

/// Whether a limit of `most` bytes has so many spaces told as too long, and each read asks for at most 65,536 bytes.
fn asks_for_little(rt: &impl Abort, alloc: Global, spaces: usize, most: u64) -> bool {
    let bytes = vec![in alloc; b' '; spaces].expect(rt, "memory");
    let mut source = source_of(alloc, bytes);
    let holds = is_too_long(alloc, &mut source, most) && source.longest <= 65_536;
    drop(source);
    holds
}

#[test]
fn a_read_asks_for_at_most_65536_bytes(rt: HostRuntime) {
    assert!(rt; asks_for_little(&rt, rt.alloc(), 200_000, 150_000));
    assert!(rt; asks_for_little(&rt, rt.alloc(), 65_537, 65_536));
}
