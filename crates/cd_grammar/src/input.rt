//! The document that a source gives.
ghost use Rattle.std.specs.Prelude.{◌≡◌, ◌≤◌, ◌<◌, ◌+◌, ◌^◌, ◌⊎◌, true, false, length, List, ℕ, Some, Ok, Err, [], IfSome, IfOk, OnOk, IsErrOf, All, vec_len};
ghost use Rattle.std.specs.Io.KnownBytes.{IsAtEnd};
ghost use Rattle.cd_base.specs.Iri.{IsIri};
ghost use Rattle.cd_io.specs.Causes.{Rose};
ghost use Rattle.cd_io.specs.Streams.{LosesAtMost};
ghost use Rattle.cd_syntax.specs.Grammar.{IsRead, IsOnly};
ghost use Rattle.cd_syntax.specs.Bounds.{IsSmall};
ghost use Rattle.cd_grammar.specs.Reading.{IsReading, IsFinished};
ghost use Rattle.cd_syntax.specs.Refusal.{IsRefused};
ghost use Rattle.cd_grammar.specs.Taking.{IsFedFrom, IsFedWhole};
ghost use Rattle.cd_syntax.specs.declared.refusal.Refusal.{Refusal};

use crate::reader::Reader;
use cd_base::{Limits, Memory};
use cd_io::Source;
use cd_meaning::Document;
use cd_syntax::Refusal;
use std::alloc::Global;
use thiserror::Error;

/// Why an input gives no document.
#[derive(Clone, Copy, Debug, PartialEq, Eq, Error)]
pub enum ReadRefusal {
    /// The input is no accepted document, or is longer than the limit.
    #[error("{0}")]
    Refused(Refusal),
    #[error("reading failed")]
    ReadFault,
    #[error("out of memory")]
    Memory,
}

impl From<Memory> for ReadRefusal {
    ghost use Rattle.std.specs.Prelude.{◌≡◌};
    ghost use Rattle.cd_grammar.specs.declared.input.ReadRefusal.{ReadRefusal};

    ghost from_gives = { λ _ e. e ≡ ReadRefusal.Memory };

    fn from(_: Memory) -> Self {
        ReadRefusal::Memory
    }
}

/// How many bytes one read asks for at most.
const PIECE: usize = 65_536;

/// The document that the bytes of a source are, up to its end. Linear in the bytes, however the source cuts them. What is held beside
/// the document are the bytes of one read and the unfinished token, of a string or a language tag nothing.
///
/// All of the input is taken before it is judged, and never more than one byte past the limit.
pub fn read_document<S: Source>(
    alloc: Global,
    source: &mut S,
    limits: &Limits,
) -> Result<Document, ReadRefusal>
    // The input was an accepted document, read to its end.
    ensures read { IfSome (S.left source.old) (λ input. IfOk result (λ document.
        (length input ≤ limits.now.max_bytes) × (S.left source.new ≡ Some [])
        × IsRead input document)) }
    ensures only { IfSome (S.left source.old) (λ input. IfOk result (IsOnly input)) }
    ensures ended { OnOk result (S.ended source.new ≡ true) }
    ensures after { OnOk result (S.after source.new ≡ S.after source.old) }

    // Whatever the answer, one byte past the limit is the last that is taken.
    ensures taken { LosesAtMost (S.left source.old) (S.left source.new) (limits.now.max_bytes + 1) }

    // How large the document is, and of which bytes its names are.
    ensures within { IfOk result (λ document. IsSmall limits.now.max_bytes document) }
    ensures small { IfSome (S.left source.old)
        (λ input. IfOk result (λ document. IsSmall (length input) document)) }
    ensures iris { IfOk result (λ document. All IsIri document.classes) }

    // Each refusal has its cause.
    ensures refused { IfSome (S.left source.old)
        (λ input. (refusal : Refusal) → result ≡ Err (ReadRefusal.Refused refusal)
        → IsRefused input limits.now.max_bytes refusal) }
    ensures read_fault { IsErrOf result ReadRefusal.ReadFault
        → Rose (S.faults source.old) (S.faults source.new) }
    ensures unended { IsErrOf result ReadRefusal.ReadFault → S.ended source.new ≡ false }
{
    let mut reader = Reader::new(alloc)?;
    if let Err(refusal) = feed_input(alloc, source, &mut reader, limits.max_bytes) {
        drop(reader);
        return Err(refusal);
    }
    finish(alloc, reader)
}

/// The document that a reader was fed, or its refusal.
fn finish(alloc: Global, reader: Reader) -> Result<Document, ReadRefusal>
    requires { (fed : List ℕ) × IsReading reader fed × (length fed < 2 ^ 31) }
    ensures read { (fed : List ℕ) → IsReading reader fed
        → IfOk result (λ document. IsFinished fed (Ok document)) }
    ensures refused { (fed : List ℕ) → IsReading reader fed
        → (refusal : Refusal) → result ≡ Err (ReadRefusal.Refused refusal)
        → IsFinished fed (Err refusal) }
    ensures judged { IsErrOf result ReadRefusal.ReadFault → ⊥ }
{
    match reader.finish(alloc) {
        Ok(Ok(document)) => Ok(document),
        Ok(Err(refusal)) => Err(ReadRefusal::Refused(refusal)),
        Err(Memory) => Err(ReadRefusal::Memory),
    }
}

/// Feeds a reader all that a source has left, unless that is more than the limit. Linear in these bytes.
fn feed_input<S: Source>(
    alloc: Global,
    source: &mut S,
    reader: &mut Reader,
    max_bytes: u64,
) -> Result<(), ReadRefusal>
    requires fresh { IsReading reader.old [] }
    requires few { max_bytes + 1 < 2 ^ 31 }
    ensures fed { OnOk result
        (IsFedWhole (S.left source.old) (S.left source.new) reader.new max_bytes) }
    ensures ended { OnOk result (S.ended source.new ≡ true) }
    ensures after { OnOk result (S.after source.new ≡ S.after source.old) }
    ensures taken { LosesAtMost (S.left source.old) (S.left source.new) (max_bytes + 1) }
    ensures refused { IfSome (S.left source.old)
        (λ input. (refusal : Refusal) → result ≡ Err (ReadRefusal.Refused refusal)
        → IsRefused input max_bytes refusal) }
    ensures read_fault { IsErrOf result ReadRefusal.ReadFault
        → Rose (S.faults source.old) (S.faults source.new) }
    ensures unended { IsErrOf result ReadRefusal.ReadFault → S.ended source.new ≡ false }
{
    let most = max_bytes + 1;
    let count = feed_all(alloc, source, reader, most)?;
    if count == most {
        return Err(ReadRefusal::Refused(Refusal::TooLong(most)));
    }
    Ok(())
}

/// Feeds a reader all that a source has left, or its first `most` bytes where it has more. How many they are. Linear in these bytes.
fn feed_all<S: Source>(
    alloc: Global,
    source: &mut S,
    reader: &mut Reader,
    most: u64,
) -> Result<u64, ReadRefusal>
    requires fresh { IsReading reader.old [] }
    requires few { most < 2 ^ 31 }
    ensures fed { IfOk result (λ count.
        IsFedFrom (S.left source.old) (S.left source.new) reader.new count) }
    ensures within { IfOk result (λ count. count ≤ most) }
    ensures end { IfOk result (λ count. ((S.ended source.new ≡ true) × IsAtEnd (S.left source.new))
        ⊎ (count ≡ most)) }
    ensures after { OnOk result (S.after source.new ≡ S.after source.old) }
    ensures taken { LosesAtMost (S.left source.old) (S.left source.new) most }
    ensures later { S.faults source.old ≤ S.faults source.new }
    ensures unjudged { (refusal : Refusal) → result ≡ Err (ReadRefusal.Refused refusal) → ⊥ }
    ensures fault { IsErrOf result ReadRefusal.ReadFault
        → Rose (S.faults source.old) (S.faults source.new) }
    ensures unended { IsErrOf result ReadRefusal.ReadFault → S.ended source.new ≡ false }
{
    let mut buf = buffer(alloc, PIECE)?;
    let mut count: u64 = 0;
    while count < most {
        let room = PIECE.min((most - count) as usize);
        let piece = buf.as_mut_slice();
        match source.read(&mut piece[..room]) {
            Ok(0) => return Ok(count),
            Ok(got) => {
                reader.feed(alloc, &piece[..got])?;
                count += got as u64;
            }
            Err(_) => return Err(ReadRefusal::ReadFault),
        }
    }
    Ok(count)
}

/// A buffer of that many bytes. Linear in them.
fn buffer(alloc: Global, size: usize) -> Result<Vec<u8>, Memory>
    ensures { IfOk result (λ v. vec_len v ≡ size) }
{
    Ok(vec![in alloc; 0; size]?)
}
