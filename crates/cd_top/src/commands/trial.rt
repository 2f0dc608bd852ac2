//! The trial command: the summary of a generated document.
ghost use Rattle.std.specs.Prelude.{◌≡◌, ◌≤◌, ◌<◌, true, false, length, ℕ, Err, IfOk, IsErrOf};
ghost use Rattle.cd_base.specs.declared.limit_kind.LimitKind.{LimitKind};
ghost use Rattle.cd_syntax.specs.declared.refusal.Refusal.{Refusal};
ghost use Rattle.cd_io.specs.Causes.{Rose};
ghost use Rattle.cd_taxonomy.specs.Relation.{relation};
ghost use Rattle.cd_taxonomy.specs.Summary.{summary_of, summary_text};
ghost use Rattle.cd_saturation.specs.Answers.{AreAnswers};
ghost use Rattle.cd_top.specs.Promises.{IsTriedBy};
ghost use Rattle.cd_top.specs.Status.{line_of, IsEarly, IsNoted};
ghost use Rattle.cd_top.specs.Trial.{IsTrialText, IsTrialLimited};

use crate::conclude::conclude;
use crate::status::Status;
use crate::stop::Stop;
use cd_base::{Answer, Limits, Memory};
use cd_gen::make;
use cd_io::Sink;
use cd_meaning::Document;
use cd_saturation::answers;
use cd_taxonomy::{summary, summary_text, taxonomy};
use std::alloc::Global;

/// The trial command on one thread: it answers the generated document of so many levels as `classify_here` answers what it reads, and
/// writes how much there is in its taxonomy. It waits for nobody and always returns.
///
/// The same four lines at each run that is done. Costs what the answer costs, as at `classify_here`, for a document of `21n + 1` nodes.
pub(crate) fn trial_here<K: Sink, E: Sink>(
    alloc: Global,
    levels: u32,
    out: &mut K,
    notes: &mut E,
    limits: &Limits,
) -> Status
    requires least { 1 ≤ levels }
    requires most { levels ≤ 20000 }
    // What it promises.
    ensures kept { IsTriedBy levels limits.now.max_contexts limits.now.max_facts
        (Rose (K.faults out.old) (K.faults out.new)) (K.written out.old)
        (K.written out.new) result }
    ensures finished { result ≡ Status.Done → K.finished out.new ≡ true }

    // Each other status has its cause, or never comes.
    ensures usage { result ≡ Status.Usage → ⊥ }
    ensures write_fault { result ≡ Status.WriteFault → Rose (K.faults out.old) (K.faults out.new) }
    ensures unfinished { result ≡ Status.WriteFault → K.finished out.new ≡ false }

    // What stands after it.
    ensures unwritten { IsEarly result → out.new ≡ out.old }
    ensures noted { IsNoted (E.written notes.old) (E.written notes.new) (E.faults notes.old)
        (E.faults notes.new) (line_of result) }
    ensures quiet { result ≡ Status.Done → notes.new ≡ notes.old }
{
    let found = trial_text(alloc, levels, limits);
    conclude(out, notes, found)
}

/// The summary of what the generated document entails. Costs what `trial_here` does.
fn trial_text(alloc: Global, levels: u32, limits: &Limits) -> Result<Vec<u8>, Stop>
    requires least { 1 ≤ levels }
    requires most { levels ≤ 20000 }
    ensures text { IfOk result (λ text. IsTrialText levels text.items) }
    ensures some { IfOk result (λ text. 0 < length text.items) }
    ensures usage { IsErrOf result Stop.Usage → ⊥ }
    ensures unread { IsErrOf result Stop.ReadFault → ⊥ }
    ensures refused { (refusal : Refusal) → result ≡ Err (Stop.Refused refusal) → ⊥ }
    ensures limit { (kind : LimitKind) (number : ℕ) → result ≡ Err (Stop.Limit kind number)
        → IsTrialLimited levels limits.now.max_contexts limits.now.max_facts kind number }
{
    let document = make(alloc, levels)?;
    let above = answers(alloc, &document, limits)?;
    let text = counted(alloc, &document, &above)?;
    Ok(text)
}

/// The summary of the answers. What `taxonomy` takes.
fn counted(alloc: Global, document: &Document, above: &[Answer]) -> Result<Vec<u8>, Memory>
    requires answers { AreAnswers document.now above.now }
    ensures { IfOk result (λ text. text.items
        ≡ summary_text (summary_of document.now.classes (relation above.now))) }
{
    let found = taxonomy(alloc, document, above)?;
    let text = summary_text(alloc, &summary(&found))?;
    Ok(text)
}
