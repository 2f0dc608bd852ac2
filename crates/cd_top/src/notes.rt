//! The line that a run's status puts on the notes.
ghost use Rattle.std.specs.Prelude.{◌≡◌, ◌-◌, ◌++◌, true, OnOk};
ghost use Rattle.std.specs.Io.KnownBytes.{Appends};
ghost use Rattle.cd_io.specs.Causes.{HasCause};
ghost use Rattle.cd_io.specs.Streams.{AppendsFront};
ghost use Rattle.cd_top.specs.Status.{IsNoted, has_fixed_line, line_of, limit_line, refusal_line, construct_line, word_or_none, numbered};
ghost use Rattle.cd_syntax.specs.Constructs.{word_of};

use crate::status::Status;
use cd_base::LimitKind;
use cd_io::{Sink, WriteFault, write_all};
use cd_syntax::{Refusal, word_text};
use itoa::Buffer;

/// Puts the status's line on the notes, as far as they take it, and gives the status back. Takes no memory. At most a write for each byte
/// of the line.
pub(crate) fn note<E: Sink>(notes: &mut E, status: Status) -> Status
    ensures same { result ≡ status }
    ensures noted { IsNoted (E.written notes.old) (E.written notes.new) (E.faults notes.old)
        (E.faults notes.new) (line_of status) }
    ensures quiet { status ≡ Status.Done → notes.new ≡ notes.old }
{
    // A fault on the notes leaves the status as it is.
    let _ = put_line(notes, status);
    status
}

/// Writes the status's line.
fn put_line<E: Sink>(notes: &mut E, status: Status) -> Result<(), WriteFault>
    ensures all { OnOk result (Appends (E.written notes.old) (E.written notes.new)
        (line_of status)) }
    ensures front { AppendsFront (E.written notes.old) (E.written notes.new) (line_of status) }
    ensures cause { HasCause (E.faults notes.old) (E.faults notes.new) result }
    ensures quiet { status ≡ Status.Done → notes.new ≡ notes.old }
{
    match status {
        Status::Refused(refusal) => put_refusal(notes, refusal),
        Status::Limit(kind, number) => put_limit(notes, kind, number),
        other => write_all(notes, fixed_line(other)),
    }
}

/// The line of a status that has no number in it; empty at `Done`.
fn fixed_line(status: Status) -> &'static [u8]
    ensures { has_fixed_line status ≡ true → result.now ≡ line_of status }
{
    match status {
        Status::Usage =>
            b"condor: usage: condor classify|trial n [--workers n] [--cells n] [--max-contexts n] [--max-facts n]\n",
        Status::ReadFault => b"condor: reading failed\n",
        Status::WriteFault => b"condor: writing failed\n",
        Status::Memory => b"condor: out of memory\n",
        Status::Done | Status::Refused(_) | Status::Limit(_, _) => b"",
    }
}

/// Writes the line of a maximum.
fn put_limit<E: Sink>(notes: &mut E, kind: LimitKind, number: u64) -> Result<(), WriteFault>
    ensures all { OnOk result (Appends (E.written notes.old) (E.written notes.new)
        (limit_line kind number)) }
    ensures front { AppendsFront (E.written notes.old) (E.written notes.new)
        (limit_line kind number) }
    ensures cause { HasCause (E.faults notes.old) (E.faults notes.new) result }
{
    match kind {
        LimitKind::Contexts => put_numbered(
            notes,
            b"condor: limit on contexts reached at ",
            number,
            b"\n",
        ),
        LimitKind::Facts => put_numbered(
            notes,
            b"condor: limit on facts reached at ",
            number,
            b"\n",
        ),
    }
}

/// Writes the line of a refusal.
fn put_refusal<E: Sink>(notes: &mut E, refusal: Refusal) -> Result<(), WriteFault>
    ensures all { OnOk result (Appends (E.written notes.old) (E.written notes.new)
        (refusal_line refusal)) }
    ensures front { AppendsFront (E.written notes.old) (E.written notes.new)
        (refusal_line refusal) }
    ensures cause { HasCause (E.faults notes.old) (E.faults notes.new) result }
{
    match refusal {
        Refusal::Syntax(place) => put_numbered(notes, b"condor: syntax at byte ", place, b"\n"),
        Refusal::Construct(number, place) => put_construct(notes, construct_word(number), place),
        Refusal::Prefix(place) => put_numbered(notes, b"condor: prefix at byte ", place, b"\n"),
        Refusal::Depth(place) => put_numbered(
            notes,
            b"condor: nesting deeper than 256 at byte ",
            place,
            b"\n",
        ),
        Refusal::TooLong(came) => put_numbered(
            notes,
            b"condor: input longer than ",
            one_less(came),
            b" bytes\n",
        ),
    }
}

/// The number before, and 0 for 0.
fn one_less(number: u64) -> u64
    ensures { result ≡ number - 1 }
{
    if number == 0 { 0 } else { number - 1 }
}

/// The word of a refused construct; empty for a number that has none. Constant time.
fn construct_word(number: u8) -> &'static [u8]
    ensures { result.now ≡ word_or_none (word_of number) }
{
    word_text(number).unwrap_or(b"")
}

/// Writes the line of a refused construct.
fn put_construct<E: Sink>(notes: &mut E, word: &[u8], place: u64) -> Result<(), WriteFault>
    ensures all { OnOk result (Appends (E.written notes.old) (E.written notes.new)
        (construct_line word.now place)) }
    ensures front { AppendsFront (E.written notes.old) (E.written notes.new)
        (construct_line word.now place) }
    ensures cause { HasCause (E.faults notes.old) (E.faults notes.new) result }
{
    put_both(notes, b"condor: construct ", word)?;
    put_numbered(notes, b" at byte ", place, b"\n")
}

/// Writes a number in decimal between two texts.
fn put_numbered<E: Sink>(
    notes: &mut E,
    front: &[u8],
    number: u64,
    back: &[u8],
) -> Result<(), WriteFault>
    ensures all { OnOk result (Appends (E.written notes.old) (E.written notes.new)
        (numbered front.now number back.now)) }
    ensures front { AppendsFront (E.written notes.old) (E.written notes.new)
        (numbered front.now number back.now) }
    ensures cause { HasCause (E.faults notes.old) (E.faults notes.new) result }
{
    let mut buffer = Buffer::new();
    write_all(notes, front)?;
    put_both(notes, buffer.format(number).as_bytes(), back)
}

/// Writes one text after the other.
fn put_both<E: Sink>(notes: &mut E, first: &[u8], second: &[u8]) -> Result<(), WriteFault>
    ensures all { OnOk result (Appends (E.written notes.old) (E.written notes.new)
        (first.now ++ second.now)) }
    ensures front { AppendsFront (E.written notes.old) (E.written notes.new)
        (first.now ++ second.now) }
    ensures cause { HasCause (E.faults notes.old) (E.faults notes.new) result }
{
    write_all(notes, first)?;
    write_all(notes, second)
}
