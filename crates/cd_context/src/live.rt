//! What the live clauses are asked for.
ghost use Rattle.std.specs.Prelude.{◌≡◌, ◌↔◌, ◌⊎◌, ◌∷◌, ℕ, [], true, IfOk, OnOk, MatchOption};
ghost use Rattle.std.specs.List.Sorted.{IsStrictlyIncreasing};
ghost use Rattle.cd_base.specs.Lists.{OneOf, SameSet};
ghost use Rattle.cd_clause.specs.Numbers.{picked};
ghost use Rattle.cd_clause.specs.declared.elem.Elem.TheVariants.{Plain};
ghost use Rattle.cd_clause.specs.Derivations.{IsSingle};
ghost use Rattle.cd_context.specs.UnitClauses.{is_only};
ghost use Rattle.cd_store.specs.Store.{IsStore};

use cd_base::{Atom, Memory};
use cd_clause::{Clause, Elem};
use std::alloc::Global;

/// Whether the empty clause is one of these numbers. Constant time.
pub(crate) fn has_empty(clauses: &[Clause], live: &[usize]) -> bool
    requires { IsStore clauses.now live.now }
    ensures { (result ≡ true) ↔ OneOf [] (picked clauses.now live.now) }
{
    let count = live.len();
    if count == 0 {
        return false;
    }
    // No clause is covered by an earlier one, and the empty clause covers all, so nothing is stored after it.
    let at = live[count - 1];
    let newest = &clauses[at];
    newest.elems().is_empty()
}

/// Whether one of these numbers has the clause of this atom alone. Linear in the numbers.
pub(crate) fn has_single(clauses: &[Clause], live: &[usize], atom: Atom) -> bool
    requires { IsStore clauses.now live.now }
    ensures { (result ≡ true) ↔ IsSingle (picked clauses.now live.now) atom }
{
    'numbers: for n in live {
        let at = *n;
        let clause = &clauses[at];
        if is_single(clause, atom) {
            return true;
        }
    }
    false
}

/// Whether the clause is that of this atom alone. Constant time.
pub(crate) fn is_single(clause: &Clause, atom: Atom) -> bool
    ensures { (result ≡ true) ↔ SameSet clause.now (Plain atom ∷ []) }
{
    is_only(clause.elems(), atom)
}

/// Whether the list is that of this atom alone. Constant time.
fn is_only(elems: &[Elem], atom: Atom) -> bool
    ensures { result ≡ is_only atom elems.now }
{
    match elems {
        [Elem::Plain(only)] => only.0 == atom.0,
        _ => false,
    }
}

/// The atoms alone in a clause of these numbers, ascending, each once. Linear in the numbers, and `n log n` in the atoms.
pub(crate) fn singles(
    alloc: Global,
    clauses: &[Clause],
    live: &[usize],
) -> Result<Vec<Atom>, Memory>
    requires { IsStore clauses.now live.now }
    ensures exact { IfOk result (λ atoms. (b : ℕ) → OneOf b atoms.items
        ↔ IsSingle (picked clauses.now live.now) b) }
    ensures ascends { IfOk result (λ atoms. IsStrictlyIncreasing atoms.items) }
{
    let mut atoms = Vec::new(alloc);
    'numbers: for i in 0..live.len() {
        let at = live[i];
        push_single(&clauses[at], &mut atoms)?;
    }
    put_in_order(&mut atoms);
    Ok(atoms)
}

/// Appends the atom that is alone in the clause, if one is. Constant time.
fn push_single(clause: &Clause, atoms: &mut Vec<Atom>) -> Result<(), Memory>
    ensures { OnOk result ((b : ℕ) → OneOf b atoms.new.items
        ↔ (OneOf b atoms.old.items ⊎ SameSet clause.now (Plain b ∷ []))) }
{
    match only_atom(clause.elems()) {
        Some(atom) => {
            atoms.push(atom)?;
        }
        None => {}
    }
    Ok(())
}

/// The atom of which the list is made alone, if there is one. Constant time.
fn only_atom(elems: &[Elem]) -> Option<Atom>
    ensures { MatchOption result ((a : ℕ) → is_only a elems.now ≡ true → ⊥)
        (λ a. is_only a elems.now ≡ true) }
{
    match elems {
        [Elem::Plain(only)] => Some(*only),
        _ => None,
    }
}

/// Puts the atoms in order, each once. `n log n`.
fn put_in_order(atoms: &mut Vec<Atom>)
    ensures same { (b : ℕ) → OneOf b atoms.new.items ↔ OneOf b atoms.old.items }
    ensures ascends { IsStrictlyIncreasing atoms.new.items }
{
    atoms.sort_unstable();
    atoms.dedup();
}
