//! The whole document.
ghost use Rattle.std.specs.Prelude.{◌≡◌, ℕ, ◌+◌, ◌*◌, ◌-◌, ◌<◌, ◌≤◌, ◌^◌, length, All, IfOk};
ghost use Rattle.cd_base.specs.Iri.{IsIri};
ghost use Rattle.cd_meaning.specs.Nodes.{nodes};
ghost use Rattle.cd_gen.specs.Generated.{generated_axioms, generated_classes, generated_roles, IsLevelNamed};

use crate::axioms::axioms;
use crate::names::{classes, roles};
use cd_base::{Memory, Seq};
use cd_meaning::Document;
use std::alloc::Global;

/// The generated document of `n` levels, from 1 to 20,000. Linear in `n`.
///
/// It has `4n + 4` classes, `6n + 1` axioms and `21n + 1` nodes, a node being an axiom or an occurrence of a class expression in one.
pub fn make(alloc: Global, n: u32) -> Result<Document, Memory>
    requires least { 1 ≤ n }
    requires most { n ≤ 20000 }

    // It is the document of the definition.
    ensures axioms { IfOk result (λ document. document.axioms ≡ generated_axioms n) }
    ensures classes { IfOk result (λ document. document.classes ≡ generated_classes n) }
    ensures roles { IfOk result (λ document. document.roles ≡ generated_roles) }

    // The numbers in its axioms are those of its names.
    ensures named { IfOk result (λ document. (level : ℕ) → level < n
        → IsLevelNamed document.classes level) }

    // How large it is, and of which bytes its names are.
    ensures counts { IfOk result (λ document. (length document.classes ≡ 4 * n + 4)
        × (length document.axioms ≡ 6 * n + 1) × (nodes document.axioms ≡ 21 * n + 1)) }
    ensures small { IfOk result (λ document. nodes document.axioms < 1000000) }
    ensures few { IfOk result (λ document. length document.classes + 6 * nodes document.axioms
        < 2 ^ 32 - 1) }
    ensures iris { IfOk result (λ document. All IsIri document.classes) }
{
    let axioms = axioms(alloc, n)?;
    let classes = classes(alloc, n)?;
    let roles = roles(alloc)?;
    Ok(Document {
        axioms: Seq::of(axioms),
        classes: Seq::of(classes),
        roles: Seq::of(roles),
    })
}
