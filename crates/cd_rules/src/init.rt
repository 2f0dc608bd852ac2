//! The conclusions that need no premise: the rule Init, and the rule Con for axioms without a left side.
ghost use Rattle.std.specs.Prelude.{◌≡◌, ◌<◌, length, map, IfOk, IsOk};
ghost use Rattle.cd_base.specs.Lists.{SameSet};
ghost use Rattle.cd_clause.specs.declared.elem.Elem.TheVariants.{Plain};
ghost use Rattle.cd_base.specs.Appends.{Appends};
ghost use Rattle.cd_rules.specs.Among.{Among};
ghost use Rattle.cd_rules.specs.Parts.{IsInitBy, IsRightOf};
ghost use Rattle.cd_rules.specs.Steps.{IsInit, IsFree};
ghost use Rattle.cd_rules.specs.Uses.{FromKey};

use cd_base::{Atom, Conj, Key, Lit, Memory};
use cd_clause::{Clause, Elem};
use cd_index::Index;
use std::alloc::Global;

/// Appends every conclusion that needs no premise in the context of this key, and no other.
///
/// Linear in the key and in the axioms without a left side. `Memory` leaves such conclusions alone behind.
pub fn on_key(alloc: Global, index: &Index, key: &Key, out: &mut Vec<Clause>) -> Result<(), Memory>
    ensures { Appends Among (FromKey index.now.normal key.now)
        (IsOk result) out.old.items out.new.items }
{
    init(alloc, key, out)?;
    free(alloc, index, out)
}

/// ```text
/// the key has A
/// -------------
///       A
/// ```
///
/// Linear in the key.
fn init(alloc: Global, key: &Key, out: &mut Vec<Clause>) -> Result<(), Memory>
    ensures { Appends Among (IsInit key.now) (IsOk result) out.old.items out.new.items }
{
    let mut rest = key.lits();
    'lits: while let [lit, later @ ..] = rest {
        push_atom(alloc, lit, out)?;
        rest = later;
    }
    Ok(())
}

/// The clause of the literal's atom, where the literal isn't negated. Constant time.
fn push_atom(alloc: Global, lit: &Lit, out: &mut Vec<Clause>) -> Result<(), Memory>
    ensures { Appends Among (IsInitBy lit.now) (IsOk result) out.old.items out.new.items }
{
    if !lit.negated {
        out.push(atoms_clause(alloc, &[lit.atom])?)?;
    }
    Ok(())
}

/// ```text
/// -> B1 .. Bm
/// ------------
/// B1 + .. + Bm
/// ```
///
/// Linear in these axioms.
fn free(alloc: Global, index: &Index, out: &mut Vec<Clause>) -> Result<(), Memory>
    ensures { Appends Among (IsFree index.now.normal) (IsOk result) out.old.items out.new.items }
{
    let axioms = index.normal().n1.items();
    let mut rest = index.free();
    'axioms: while let [number, later @ ..] = rest {
        push_right(alloc, axioms, *number, out)?;
        rest = later;
    }
    Ok(())
}

/// The clause of the right side of the axiom with this number. n log n comparisons for n atoms.
fn push_right(
    alloc: Global,
    axioms: &[Conj],
    number: usize,
    out: &mut Vec<Clause>,
) -> Result<(), Memory>
    requires { number < length axioms.now }
    ensures { Appends Among (IsRightOf axioms.now number)
        (IsOk result) out.old.items out.new.items }
{
    out.push(atoms_clause(alloc, axioms[number].right.items())?)?;
    Ok(())
}

/// The clause of these atoms. n log n comparisons for n atoms.
pub(crate) fn atoms_clause(alloc: Global, atoms: &[Atom]) -> Result<Clause, Memory>
    ensures { IfOk result (λ clause. SameSet clause (map Plain atoms.now)) }
{
    let elems = plains(alloc, atoms)?;
    Clause::of(alloc, elems.as_slice())
}

/// Each of these atoms as an element. Linear in them.
fn plains(alloc: Global, atoms: &[Atom]) -> Result<Vec<Elem>, Memory>
    ensures { IfOk result (λ elems. elems.items ≡ map Plain atoms.now) }
{
    let elems = atoms
        .iter()
        .map(|atom| Elem::Plain(*atom))
        .collect::<Vec<Elem>>(alloc)?;
    Ok(elems)
}
