//! The classify command: the answer to the input.
ghost use Rattle.std.specs.Prelude.{◌≡◌, ◌≤◌, ◌<◌, ◌+◌, true, false, length, ℕ, Some, Err, [], IfSome, IfOk, OnOk, IsErrOf};
ghost use Rattle.cd_base.specs.declared.limit_kind.LimitKind.{LimitKind};
ghost use Rattle.cd_syntax.specs.Refusal.{IsRefused};
ghost use Rattle.cd_syntax.specs.declared.refusal.Refusal.{Refusal};
ghost use Rattle.cd_io.specs.Causes.{Rose};
ghost use Rattle.cd_io.specs.Streams.{LosesAtMost};
ghost use Rattle.cd_top.specs.Headline.{IsAnswered, IsClassified, IsLimited};
ghost use Rattle.cd_top.specs.Promises.{IsClassifiedBy};
ghost use Rattle.cd_top.specs.Status.{line_of, IsEarly, IsNoted};

use crate::answer::answer_to;
use crate::conclude::conclude;
use crate::status::Status;
use crate::stop::Stop;
use cd_base::Limits;
use cd_grammar::read_document;
use cd_io::{Sink, Source};
use std::alloc::Global;

/// The classify command on one thread: it waits for nobody and always returns.
///
/// Linear in the bytes of the input and of the answer, and near linear in the sum of the numbers of superclasses of all classes, beside
/// the rules for each clause of each context (`cd_context`), of which there can be exponentially many in the axioms.
pub fn classify_here<S: Source, K: Sink, E: Sink>(
    alloc: Global,
    source: &mut S,
    out: &mut K,
    notes: &mut E,
    limits: &Limits,
) -> Status
    // The headline: the input was an accepted document, read to its end, and exactly one text was written: its answer.
    ensures done { IfSome (S.left source.old) (λ input. result ≡ Status.Done →
        IsClassified input limits.now.max_bytes (S.left source.new) (K.written out.old)
        (K.written out.new)) }
    ensures finished { result ≡ Status.Done → K.finished out.new ≡ true }
    ensures kept { IsClassifiedBy limits.now.max_bytes limits.now.max_contexts limits.now.max_facts
        (S.left source.old) (S.ended source.new)
        (Rose (S.faults source.old) (S.faults source.new))
        (Rose (K.faults out.old) (K.faults out.new)) (K.written out.old)
        (K.written out.new) result }

    // Each other status has its cause.
    ensures usage { result ≡ Status.Usage → ⊥ }
    ensures read_fault { result ≡ Status.ReadFault
        → Rose (S.faults source.old) (S.faults source.new) }
    ensures unended { result ≡ Status.ReadFault → S.ended source.new ≡ false }
    ensures write_fault { result ≡ Status.WriteFault → Rose (K.faults out.old) (K.faults out.new) }
    ensures unfinished { result ≡ Status.WriteFault → K.finished out.new ≡ false }
    ensures refused { IfSome (S.left source.old)
        (λ input. (refusal : Refusal) → result ≡ Status.Refused refusal
        → IsRefused input limits.now.max_bytes refusal) }

    // What stands after it.
    ensures taken { LosesAtMost (S.left source.old) (S.left source.new) (limits.now.max_bytes + 1) }
    ensures unwritten { IsEarly result → out.new ≡ out.old }
    ensures noted { IsNoted (E.written notes.old) (E.written notes.new) (E.faults notes.old)
        (E.faults notes.new) (line_of result) }
    ensures quiet { result ≡ Status.Done → notes.new ≡ notes.old }
{
    let found = answer_of(alloc, source, limits);
    conclude(out, notes, found)
}

/// The answer to all that a source has left. Linear in these bytes, and then what the answer costs, as at `classify_here`.
fn answer_of<S: Source>(alloc: Global, source: &mut S, limits: &Limits) -> Result<Vec<u8>, Stop>
    ensures answered { IfSome (S.left source.old) (λ input. IfOk result (λ text.
        (length input ≤ limits.now.max_bytes) × (S.left source.new ≡ Some [])
        × IsAnswered input text.items)) }
    ensures some { IfOk result (λ text. 0 < length text.items) }
    ensures ended { OnOk result (S.ended source.new ≡ true) }
    ensures taken { LosesAtMost (S.left source.old) (S.left source.new) (limits.now.max_bytes + 1) }
    ensures usage { IsErrOf result Stop.Usage → ⊥ }
    ensures read_fault { IsErrOf result Stop.ReadFault
        → Rose (S.faults source.old) (S.faults source.new) }
    ensures unended { IsErrOf result Stop.ReadFault → S.ended source.new ≡ false }
    ensures refused { IfSome (S.left source.old)
        (λ input. (refusal : Refusal) → result ≡ Err (Stop.Refused refusal)
        → IsRefused input limits.now.max_bytes refusal) }
    ensures limit { IfSome (S.left source.old) (λ input. (kind : LimitKind) (number : ℕ)
        → result ≡ Err (Stop.Limit kind number)
        → IsLimited input limits.now.max_bytes limits.now.max_contexts limits.now.max_facts kind
        number) }
{
    let document = read_document(alloc, source, limits)?;
    let text = answer_to(alloc, &document, limits)?;
    Ok(text)
}
