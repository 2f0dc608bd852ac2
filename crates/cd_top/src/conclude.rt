//! The one place that writes what a command has found, and tells how it ended.
ghost use Rattle.std.specs.Prelude.{◌≡◌, ◌<◌, ◌⊎◌, true, false, length, IfOk, IfErr, OnOk, OnErr};
ghost use Rattle.std.specs.Io.KnownBytes.{Appends};
ghost use Rattle.cd_io.specs.Causes.{Rose, HasCause};
ghost use Rattle.cd_io.specs.Streams.{AppendsFront};
ghost use Rattle.cd_top.specs.Status.{line_of, IsEarly, IsNoted};
ghost use Rattle.cd_top.specs.Stops.{status_of};

use crate::notes::note;
use crate::status::Status;
use crate::stop::Stop;
use cd_io::{Sink, WriteFault, write_all};

/// Writes the text that was found, and puts the line of any end but `Done` on the notes. Nothing is written where none was found.
pub(crate) fn conclude<K: Sink, E: Sink>(
    out: &mut K,
    notes: &mut E,
    found: Result<Vec<u8>, Stop>,
) -> Status
    requires some { IfOk found (λ text. 0 < length text.items) }
    // The status is that of the stop, or tells whether the text was written.
    ensures stopped { IfErr found (λ stop. result ≡ status_of stop) }
    ensures text { IfOk found (λ _. (result ≡ Status.Done) ⊎ (result ≡ Status.WriteFault)) }
    ensures done { IfOk found (λ text. result ≡ Status.Done
        → Appends (K.written out.old) (K.written out.new) text.items) }
    ensures finished { result ≡ Status.Done → K.finished out.new ≡ true }
    ensures partly { IfOk found (λ text. result ≡ Status.WriteFault
        → AppendsFront (K.written out.old) (K.written out.new) text.items) }
    ensures write_fault { result ≡ Status.WriteFault → Rose (K.faults out.old) (K.faults out.new) }
    ensures unfinished { result ≡ Status.WriteFault → K.finished out.new ≡ false }
    ensures unwritten { IsEarly result → out.new ≡ out.old }
    ensures noted { IsNoted (E.written notes.old) (E.written notes.new) (E.faults notes.old)
        (E.faults notes.new) (line_of result) }
    ensures quiet { result ≡ Status.Done → notes.new ≡ notes.old }
{
    match found {
        Ok(text) => match publish(out, &text) {
            Ok(()) => note(notes, Status::Done),
            Err(_) => note(notes, Status::WriteFault),
        },
        Err(stop) => note(notes, stop.status()),
    }
}

/// Writes the whole text and hands it on. At most a write for each byte.
fn publish<K: Sink>(out: &mut K, text: &[u8]) -> Result<(), WriteFault>
    ensures all { OnOk result (Appends (K.written out.old) (K.written out.new) text.now) }
    ensures finished { OnOk result (K.finished out.new ≡ true) }
    ensures front { AppendsFront (K.written out.old) (K.written out.new) text.now }
    ensures cause { HasCause (K.faults out.old) (K.faults out.new) result }
    ensures unfinished { 0 < length text.now → OnErr result (K.finished out.new ≡ false) }
{
    write_all(out, text)?;
    match out.finish() {
        Ok(()) => Ok(()),
        Err(_) => Err(WriteFault),
    }
}
