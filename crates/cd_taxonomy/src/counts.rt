//! How many classes are above each class. Of two classes, one below the other, the lower has more, unless they are equivalent.
ghost use Rattle.std.specs.Prelude.{◌≡◌, ℕ, ◌<◌, ◌^◌, ◌↔◌, length, All, Contains, IfOk};
ghost use Rattle.std.specs.List.Sorted.{IsStrictlyIncreasing};
ghost use Rattle.cd_taxonomy.specs.Relation.{HasClassesBelow};
ghost use Rattle.cd_taxonomy.specs.Steps.{superclasses, superclass_counts};

use crate::order::numbers_below;
use cd_base::{Answer, Atom, Memory};
use std::alloc::Global;

/// The classes below `n` that are above a class with this answer, ascending and each once.
///
/// Linear in the answer where it is ascending, else `n log n` in it; linear in `n` for an unsatisfiable class.
pub(crate) fn superclasses(alloc: Global, n: u32, answer: &Answer) -> Result<Vec<u32>, Memory>
    requires { HasClassesBelow n answer.now }
    ensures { IfOk result (λ found. found.items ≡ superclasses n answer.now) }
{
    match answer {
        Answer::Unsatisfiable => numbers_below(alloc, n),
        Answer::Of(atoms) => numbers(alloc, atoms.items()),
    }
}

/// The numbers of these atoms, ascending and each once. Linear where they are ascending, else `n log n`.
fn numbers(alloc: Global, atoms: &[Atom]) -> Result<Vec<u32>, Memory>
    ensures ascending { IfOk result (λ found. IsStrictlyIncreasing found.items) }
    ensures listed { IfOk result (λ found. (b : ℕ) → Contains found.items b
        ↔ Contains atoms.now b) }
{
    let mut found = listed_numbers(alloc, atoms)?;
    found.sort_unstable();
    found.dedup();
    Ok(found)
}

/// The numbers of these atoms as they are listed. Linear.
fn listed_numbers(alloc: Global, atoms: &[Atom]) -> Result<Vec<u32>, Memory>
    ensures { IfOk result (λ found. found.items ≡ atoms.now) }
{
    let found = atoms.iter().map(|atom| atom.number()).collect(alloc)?;
    Ok(found)
}

/// How many classes are above each class. As `superclasses` of each answer, but constant for an unsatisfiable class.
pub(crate) fn superclass_counts(alloc: Global, above: &[Answer]) -> Result<Vec<u32>, Memory>
    requires few { length above.now < 2 ^ 32 }
    requires within { All (HasClassesBelow (length above.now)) above.now }
    ensures { IfOk result (λ counts. counts.items ≡ superclass_counts above.now) }
{
    let n = above.len() as u32;
    let mut counts = Vec::with_capacity(alloc, above.len())?;
    for answer in above {
        counts.push(superclass_count(alloc, n, answer)?)?;
    }
    Ok(counts)
}

/// How many classes below `n` are above a class with this answer. As `superclasses`, but constant for an unsatisfiable class.
fn superclass_count(alloc: Global, n: u32, answer: &Answer) -> Result<u32, Memory>
    requires { HasClassesBelow n answer.now }
    ensures { IfOk result (λ count. count ≡ length (superclasses n answer.now)) }
{
    if let Answer::Unsatisfiable = answer {
        return Ok(n);
    }
    let found = superclasses(alloc, n, answer)?;
    Ok(found.len() as u32)
}
