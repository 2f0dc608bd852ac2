//! All that the program does: the command words, the command, and the line on the notes.
ghost use Rattle.std.specs.Prelude.{◌≡◌, ◌+◌, ◌↔◌, true, false, IfSome, ℕ, map, string_bytes};
ghost use Rattle.cd_base.specs.declared.limits.Limits.{Limits};
ghost use Rattle.cd_syntax.specs.Refusal.{IsRefused};
ghost use Rattle.cd_syntax.specs.declared.refusal.Refusal.{Refusal};
ghost use Rattle.cd_io.specs.Causes.{Rose};
ghost use Rattle.cd_io.specs.Streams.{LosesAtMost};
ghost use Rattle.cd_top.specs.Headline.{standard_bytes, IsClassified};
ghost use Rattle.cd_top.specs.Promises.{IsClassifiedBy, IsTriedBy};
ghost use Rattle.cd_top.specs.Status.{line_of, IsEarly, IsNoted};
ghost use Rattle.cd_words.specs.Form.{Asks, IsOfForm};

use crate::commands::classify::classify_here;
use crate::commands::trial::trial_here;
use crate::notes::note;
use crate::status::Status;
use crate::stop::Stop;
use cd_io::{Sink, Source};
use cd_words::{Command, ask};
use std::alloc::Global;

/// All that the program does: reads the words, does what they ask, and puts a line on any other end than `Done` on `notes`.
///
/// The form of the words is that of `cd_words::ask`. `classify` reads the input and writes its answer to `out`. `trial n` leaves the
/// input unread: it answers the generated document of n levels, and writes the four lines of its summary. Both do so under the limits
/// that the words give, but for the workers: there is one. Linear in the bytes of the words, and then what `classify_here` costs.
pub fn run<S: Source, K: Sink, E: Sink>(
    alloc: Global,
    words: &[String],
    source: &mut S,
    out: &mut K,
    notes: &mut E,
) -> Status
    // The headline: where the words ask for it, the input was an accepted document, read to its end, and exactly one text was written:
    // its answer.
    ensures done { (limits : Limits) → Asks (map string_bytes words.now) Command.Classify limits
        → IfSome (S.left source.old) (λ input. result ≡ Status.Done →
        IsClassified input limits.max_bytes (S.left source.new) (K.written out.old)
        (K.written out.new)) }

    // What each command promises.
    ensures classify { (limits : Limits) → Asks (map string_bytes words.now) Command.Classify limits
        → IsClassifiedBy limits.max_bytes limits.max_contexts limits.max_facts (S.left source.old)
        (S.ended source.new)
        (Rose (S.faults source.old) (S.faults source.new))
        (Rose (K.faults out.old) (K.faults out.new)) (K.written out.old)
        (K.written out.new) result }
    ensures trial { (n : ℕ) (limits : Limits)
        → Asks (map string_bytes words.now) (Command.Trial n) limits
        → (source.new ≡ source.old) × IsTriedBy n limits.max_contexts limits.max_facts
        (Rose (K.faults out.old) (K.faults out.new)) (K.written out.old)
        (K.written out.new) result }

    // Each status has its cause.
    ensures finished { result ≡ Status.Done → K.finished out.new ≡ true }
    ensures usage { (result ≡ Status.Usage) ↔ (IsOfForm (map string_bytes words.now) → ⊥) }
    ensures read_fault { result ≡ Status.ReadFault
        → Rose (S.faults source.old) (S.faults source.new) }
    ensures unended { result ≡ Status.ReadFault → S.ended source.new ≡ false }
    ensures write_fault { result ≡ Status.WriteFault → Rose (K.faults out.old) (K.faults out.new) }
    ensures unfinished { result ≡ Status.WriteFault → K.finished out.new ≡ false }
    ensures refused { IfSome (S.left source.old)
        (λ input. (refusal : Refusal) → result ≡ Status.Refused refusal
        → IsRefused input standard_bytes refusal) }

    // What stands after it.
    ensures taken { LosesAtMost (S.left source.old) (S.left source.new) (standard_bytes + 1) }
    ensures unread { result ≡ Status.Usage → source.new ≡ source.old }
    ensures unwritten { IsEarly result → out.new ≡ out.old }
    ensures noted { IsNoted (E.written notes.old) (E.written notes.new) (E.faults notes.old)
        (E.faults notes.new) (line_of result) }
    ensures quiet { result ≡ Status.Done → notes.new ≡ notes.old }
{
    match ask(alloc, words) {
        Ok(asked) => match asked.command {
            Command::Classify => classify_here(alloc, source, out, notes, &asked.limits),
            Command::Trial(levels) => trial_here(alloc, levels, out, notes, &asked.limits),
        },
        Err(fault) => note(notes, Stop::from(fault).status()),
    }
}
