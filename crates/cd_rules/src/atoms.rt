//! Atoms of clauses, and those that are their greatest elements.
ghost use Rattle.std.specs.Prelude.{◌≡◌, ◌<◌, ◌⊎◌, ◌↔◌, ◌++◌, ℕ, List, [], length, slice_index_or, true, IfOk, OnOk, MatchOption};
ghost use Rattle.cd_base.specs.Lists.{OneOf, SameSet};
ghost use Rattle.cd_clause.specs.Elements.{Eligible, rest};
ghost use Rattle.cd_clause.specs.declared.elem.Elem.TheVariants.{Plain, Exist};

use cd_base::{Atom, Memory, Normal};
use cd_clause::{Clause, Elem, greatest};

/// The clause without this atom. Linear in the clause.
pub(crate) fn without_atom(clause: &Clause, atom: Atom) -> Result<Clause, Memory>
    ensures { IfOk result (λ others. SameSet others (rest (Plain atom) clause.now)) }
{
    match place_of(clause.elems(), atom) {
        None => clause.copy(),
        Some(i) => clause.without(i),
    }
}

/// Appends the atom that is the greatest element of the clause, where that is an atom. As `greatest_atom`.
pub fn push_eligible(clause: &Clause, normal: &Normal, atoms: &mut Vec<u32>) -> Result<(), Memory>
    ensures { OnOk result ((b : ℕ) → OneOf b atoms.new.items
        ↔ (OneOf b atoms.old.items ⊎ Eligible normal.now (Plain b) clause.now)) }
{
    match greatest_atom(clause, normal) {
        None => Ok(()),
        Some(atom) => {
            atoms.push(atom.number())?;
            Ok(())
        }
    }
}

/// The atom that is the greatest element of the clause, where that is an atom.
///
/// One walk over the clause. Constant time where the clause has an existential, since each is above the atoms.
pub(crate) fn greatest_atom(clause: &Clause, normal: &Normal) -> Option<Atom>
    ensures { MatchOption result ((a : ℕ) → Eligible normal.now (Plain a) clause.now → ⊥)
        (λ a. Eligible normal.now (Plain a) clause.now) }
{
    if has_existential(clause) {
        return None;
    }
    let Some(i) = greatest(clause, normal) else {
        return None;
    };
    match &clause.elems()[i] {
        Elem::Plain(atom) => Some(*atom),
        Elem::Exist(_, _) => None,
    }
}

/// Whether an existential is in the clause. Constant time, since existentials stand last.
fn has_existential(clause: &Clause) -> bool
    ensures { (result ≡ true) ↔ ((r : ℕ) × (k : List ℕ) × OneOf (Exist r k) clause.now) }
{
    let elems = clause.elems();
    !elems.is_empty() && is_existential(&elems[elems.len() - 1])
}

/// Whether the element is an existential. Constant time.
fn is_existential(elem: &Elem) -> bool
    ensures { (result ≡ true) ↔ ((r : ℕ) × (k : List ℕ) × (elem.now ≡ Exist r k)) }
{
    match elem {
        Elem::Plain(_) => false,
        Elem::Exist(_, _) => true,
    }
}

/// The place at which the atom stands. Linear in the elements.
fn place_of(elems: &[Elem], atom: Atom) -> Option<usize>
    ensures { MatchOption result (OneOf (Plain atom) elems.now → ⊥)
        (λ i. (i < length elems.now) × (slice_index_or elems.now i (Plain 0) ≡ Plain atom)) }
{
    'places: for i in 0..elems.len() {
        if is_atom(&elems[i], atom) {
            return Some(i);
        }
    }
    None
}

/// Whether the element is this atom. Constant time.
fn is_atom(elem: &Elem, atom: Atom) -> bool
    ensures { (result ≡ true) ↔ (elem.now ≡ Plain atom) }
{
    match elem {
        Elem::Plain(other) => other.0 == atom.0,
        Elem::Exist(_, _) => false,
    }
}
