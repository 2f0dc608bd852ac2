//! From a document to its normal axioms by atom.
ghost use Rattle.std.specs.Prelude.{◌<◌, ◌-◌, ◌+◌, ◌*◌, ◌^◌, length, IfOk};
ghost use Rattle.cd_model.specs.Canonical.{RolesInRange};
ghost use Rattle.cd_meaning.specs.Nodes.{nodes};
ghost use Rattle.cd_normal.specs.NormalForm.{IsStructuralNormalForm};
ghost use Rattle.cd_saturation.specs.Saturation.{HasClosure};

use cd_base::Memory;
use cd_index::{Closure, Index};
use cd_meaning::Document;
use cd_normal::normalise;
use std::alloc::Global;

/// The normal axioms of a document, by atom. Linear in its nodes, but for a look-up of each operand of a disjointness, and in the roles
/// and the related pairs of them.
pub fn index_of(alloc: Global, document: &Document) -> Result<Index, Memory>
    requires few { length document.now.classes + 6 * nodes document.now.axioms < 2 ^ 32 - 1 }
    ensures normal_form { IfOk result (λ index. IsStructuralNormalForm document.now index.normal) }
    ensures closure { IfOk result (λ index. HasClosure index.normal) }
    ensures roles { IfOk result (λ index. RolesInRange index.normal) }
{
    let normal = normalise(alloc, document)?;
    let closure = Closure::of(alloc, normal.roles, normal.n5.items())?;
    let index = Index::of(alloc, normal, closure)?;
    Ok(index)
}
