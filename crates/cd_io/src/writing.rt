ghost use Rattle.std.specs.Prelude.{◌≡◌, ◌<◌, false, length, IsOk, OnOk, OnErr};
ghost use Rattle.std.specs.Io.KnownBytes.{Appends};
ghost use Rattle.cd_io.specs.Causes.{HasCause};
ghost use Rattle.cd_io.specs.Streams.{AppendsFront, AppendsPart};

use crate::streams::{Sink, WriteFault};

/// Writes all bytes, each time handing on all that is left. It does not finish the sink.
///
/// `WriteFault` says that only a front of the bytes is out, since a write failed. At most a write for each byte.
pub fn write_all<K: Sink>(sink: &mut K, bytes: &[u8]) -> Result<(), WriteFault>
    ensures all { OnOk result (Appends (K.written sink.old) (K.written sink.new) bytes.now) }
    ensures front { AppendsFront (K.written sink.old) (K.written sink.new) bytes.now }
    ensures part { OnErr result (AppendsPart (K.written sink.old) (K.written sink.new) bytes.now) }
    ensures cause { HasCause (K.faults sink.old) (K.faults sink.new) result }

    // No bytes need no write, and any write leaves the sink unfinished.
    ensures nothing { length bytes.now ≡ 0 → IsOk result × (sink.new ≡ sink.old) }
    ensures unfinished { 0 < length bytes.now → K.finished sink.new ≡ false }
{
    let mut done = 0;
    while done < bytes.len() {
        match sink.write(&bytes[done..]) {
            Ok(count) => done += count,
            Err(_) => return Err(WriteFault),
        }
    }
    Ok(())
}
