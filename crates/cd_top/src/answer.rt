//! From a document to the bytes of its answer.
ghost use Rattle.std.specs.Prelude.{◌≡◌, ◌<◌, ◌-◌, ◌+◌, ◌*◌, ◌^◌, ℕ, length, All, IfOk, Err};
ghost use Rattle.cd_base.specs.Iri.{IsIri};
ghost use Rattle.cd_base.specs.declared.limit_kind.LimitKind.{LimitKind};
ghost use Rattle.cd_meaning.specs.Answer.{IsAnswer};
ghost use Rattle.cd_meaning.specs.Nodes.{nodes};
ghost use Rattle.cd_saturation.specs.Answers.{AreAnswers};
ghost use Rattle.cd_saturation.specs.Limit.{IsReached};

use cd_base::{Answer, Limits, Memory};
use cd_meaning::Document;
use cd_saturation::{Halt, answers};
use cd_taxonomy::{taxonomy, text};
use std::alloc::Global;

/// The text of what a document entails of its classes. What `answers`, `taxonomy` and `text` take.
pub(crate) fn answer_to(
    alloc: Global,
    document: &Document,
    limits: &Limits,
) -> Result<Vec<u8>, Halt>
    requires few { length document.now.classes + 6 * nodes document.now.axioms < 2 ^ 32 - 1 }
    requires iris { All IsIri document.now.classes }
    ensures answer { IfOk result (λ text. IsAnswer document.now text.items) }
    ensures limit { (kind : LimitKind) (number : ℕ) → result ≡ Err (Halt.Limit kind number)
        → IsReached document.now limits.now.max_contexts limits.now.max_facts kind number }
{
    let above = answers(alloc, document, limits)?;
    let bytes = text_of(alloc, document, &above)?;
    Ok(bytes)
}

/// The text of the answers. What `taxonomy` and `text` take.
fn text_of(alloc: Global, document: &Document, above: &[Answer]) -> Result<Vec<u8>, Memory>
    requires answers { AreAnswers document.now above.now }
    requires iris { All IsIri document.now.classes }
    ensures answer { IfOk result (λ text. IsAnswer document.now text.items) }
{
    let found = taxonomy(alloc, document, above)?;
    let bytes = text(alloc, document, &found)?;
    Ok(bytes)
}
