//! Which axioms the rule Con tries for an atom.
ghost use Rattle.std.specs.Prelude.{◌≡◌, ◌<◌, ◌⊎◌, ◌↔◌, ℕ, length, map, true, IfOk, IfSome, OnOk};
ghost use Rattle.std.specs.List.Sorted.{IsStrictlyIncreasing};
ghost use Rattle.cd_base.specs.Lists.{OneOf};
ghost use Rattle.cd_index.specs.Index.{left_of};
ghost use Rattle.cd_rules.specs.Candidates.{AreAtHand, AreCandidates, AreFiledWith, HasWide, filed_count};
ghost use Rattle.cd_rules.specs.LookUps.{AreNumbers, filed_at};
ghost use Rattle.cd_rules.specs.declared.partners.Partner.{Partner};

use crate::look_ups::filed;
use crate::partners::Partner;
use cd_base::{Atom, Conj, Memory};
use cd_index::Index;
use std::alloc::Global;

/// Where there are no more than so many axioms with an atom on the left, no other way to find them is tried.
const FEW: usize = 8;

/// The axioms to try for the atom, found by the atoms under which they are filed, where these are fewer than `limit`.
///
/// Constant time where `limit` is small or no more than what is filed under `atom`. Else `n log n` in the partners, and then a look at the
/// left side of each axiom that is filed under one of their atoms, if they are fewer.
pub(crate) fn candidates(
    alloc: Global,
    index: &Index,
    partners: &[Partner],
    atom: Atom,
    limit: usize,
) -> Result<Option<Vec<usize>>, Memory>
    ensures { IfOk result (λ found.
        IfSome found (λ numbers. AreCandidates index.now.normal.n1 partners.now atom
        numbers.items)) }
{
    if limit <= FEW || filed(index, atom).len() >= limit {
        return Ok(None);
    }
    let atoms = atoms_at_hand(alloc, partners, atom)?;
    if !are_fewer(index, atoms.as_slice(), limit) {
        return Ok(None);
    }
    let numbers = filed_with(alloc, index, atoms.as_slice(), atom)?;
    Ok(Some(numbers))
}

/// The atom and those of the partners, ascending and each once. `n log n` in the partners.
fn atoms_at_hand(alloc: Global, partners: &[Partner], atom: Atom) -> Result<Vec<u32>, Memory>
    ensures exact { IfOk result (λ atoms. AreAtHand partners.now atom atoms.items) }
    ensures ascends { IfOk result (λ atoms. IsStrictlyIncreasing atoms.items) }
{
    let mut atoms = atoms_of(alloc, partners)?;
    atoms.push(atom.number())?;
    put_in_order(&mut atoms);
    Ok(atoms)
}

/// The atoms of the partners. Linear in them.
fn atoms_of(alloc: Global, partners: &[Partner]) -> Result<Vec<u32>, Memory>
    ensures { IfOk result (λ atoms. atoms.items ≡ map (λ (p : Partner). p.atom) partners.now) }
{
    let atoms = partners
        .iter()
        .map(|partner| partner.atom.number())
        .collect::<Vec<u32>>(alloc)?;
    Ok(atoms)
}

/// Puts the numbers in order, each once. `n log n`.
fn put_in_order(numbers: &mut Vec<u32>)
    ensures same { (b : ℕ) → OneOf b numbers.new.items ↔ OneOf b numbers.old.items }
    ensures ascends { IsStrictlyIncreasing numbers.new.items }
{
    numbers.sort_unstable();
    numbers.dedup();
}

/// Whether fewer axioms than `limit` are filed under these atoms. Linear in the atoms.
fn are_fewer(index: &Index, atoms: &[u32], limit: usize) -> bool
    ensures { (result ≡ true) ↔ (filed_count index.now.filed index.now.normal.atoms atoms.now
        < limit) }
{
    let mut left = limit;
    let mut rest = atoms;
    'atoms: while let [atom, later @ ..] = rest {
        let found = filed(index, Atom(*atom)).len();
        if left <= found {
            return false;
        }
        left -= found;
        rest = later;
    }
    0 < left
}

/// The axioms that are filed under one of these atoms and have `atom` on the left. A look over the left side of each that is filed there.
fn filed_with(alloc: Global, index: &Index, atoms: &[u32], atom: Atom) -> Result<Vec<usize>, Memory>
    ensures { IfOk result (λ numbers.
        AreFiledWith index.now.normal.n1 index.now.filed index.now.normal.atoms atoms.now atom
        numbers.items) }
{
    let mut numbers = Vec::new(alloc);
    'atoms: for i in 0..atoms.len() {
        push_filed(index, Atom(atoms[i]), atom, &mut numbers)?;
    }
    Ok(numbers)
}

/// Appends the axioms that are filed under `under` and have `atom` on the left.
fn push_filed(
    index: &Index,
    under: Atom,
    atom: Atom,
    numbers: &mut Vec<usize>,
) -> Result<(), Memory>
    ensures { OnOk result ((k : ℕ) → OneOf k numbers.new.items
        ↔ (OneOf k numbers.old.items
        ⊎ (OneOf k (filed_at index.now.filed index.now.normal.atoms under)
        × OneOf atom (left_of index.now.normal.n1 k)))) }
{
    let axioms = index.normal().n1.items();
    let found = filed(index, under);
    'found: for i in 0..found.len() {
        if has_on_left(axioms, found[i], atom) {
            numbers.push(found[i])?;
        }
    }
    Ok(())
}

/// Whether one of the axioms with these numbers has another atom on the left too. Linear in the numbers before the first such axiom.
pub(crate) fn has_wide(axioms: &[Conj], numbers: &[usize]) -> bool
    requires { AreNumbers axioms.now numbers.now }
    ensures { (result ≡ true) ↔ HasWide axioms.now numbers.now }
{
    'numbers: for i in 0..numbers.len() {
        let conj = &axioms[numbers[i]];
        if 1 < conj.left.items().len() {
            return true;
        }
    }
    false
}

/// Whether the atom is on the left of the axiom. Linear in the left side.
fn has_on_left(axioms: &[Conj], number: usize, atom: Atom) -> bool
    requires { number < length axioms.now }
    ensures { (result ≡ true) ↔ OneOf atom (left_of axioms.now number) }
{
    let conj = &axioms[number];
    has_atom(conj.left.items(), atom)
}

/// Whether the atom is one of these. Linear in them.
fn has_atom(atoms: &[Atom], atom: Atom) -> bool
    ensures { (result ≡ true) ↔ OneOf atom atoms.now }
{
    'atoms: for i in 0..atoms.len() {
        let at = atoms[i];
        if at.0 == atom.0 {
            return true;
        }
    }
    false
}
