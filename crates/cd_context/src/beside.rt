//! Which clauses can be of use beside a premise.
//!
//! A context may have thousands of live clauses, and most premises can do with few of them. So no premise is tried with all: for each atom
//! of the premise the axioms with that atom on the left say which atoms the others have, and for All it is the clauses with an
//! existential, or with an atom that has an axiom. The store finds the clauses by what they have.
ghost use Rattle.std.specs.Prelude.{◌≡◌, ◌<◌, ◌↔◌, ℕ, length, slice_index_or, true, IfOk, IfSome, OnOk, MatchOption};
ghost use Rattle.cd_base.specs.Lists.{OneOf};
ghost use Rattle.cd_base.specs.declared.normal.Triple.{Triple};
ghost use Rattle.cd_clause.specs.Elements.{Eligible};
ghost use Rattle.cd_clause.specs.declared.elem.Elem.{Elem};
ghost use Rattle.cd_clause.specs.declared.elem.Elem.TheVariants.{Plain};
ghost use Rattle.cd_index.specs.Index.{IsFiling};
ghost use Rattle.cd_rules.specs.LookUps.{AreNumbers, HasAllWith};
ghost use Rattle.cd_context.specs.Beside.{AreEnough, HasAllAtoms, IsBeside, IsBesideByCon, IsBesideByFiled, IsBesideByOne, IsBesideByUniversal, IsBesideExist, IsBesideLeft, IsBesideUniversal, IsHad, Stands};
ghost use Rattle.cd_context.specs.Waits.{numbers};
ghost use Rattle.cd_store.specs.LookUps.{Gains, HasElem};

use crate::waiting::Waiting;
use cd_base::{Atom, Memory};
use cd_clause::{Clause, Elem, greatest};
use cd_index::Index;
use cd_rules::look_ups::{alls, filed, with_left};
use cd_store::Store;
use std::alloc::Global;

/// Where there are no more than so many axioms, no other way to find those that are of use is tried; and of more clauses than that with an atom
/// none is looked at.
const FEW: usize = 8;

/// Numbers of live clauses, among them each that can be of use beside the premise and doesn't wait. The premise's own is left out.
///
/// The cost is that of a look at each axiom that is tried for an eligible atom of the premise, of all clauses with an atom of those that
/// can fire or with one for All, `n log n` in these, and logarithmic in the live clauses for each of them. For an existential it is also
/// linear in the universals or in the elements of the store, whichever are fewer.
pub(crate) fn beside(
    alloc: Global,
    index: &Index,
    store: &Store,
    waiting: &Waiting,
    premise: usize,
) -> Result<Vec<usize>, Memory>
    requires { premise < length store.now.clauses }
    ensures live { IfOk result (λ others. (k : ℕ) → OneOf k others.items → OneOf k store.now.live) }
    ensures enough { IfOk result
        (λ others. AreEnough index.now.normal store.now.clauses store.now.live
        (numbers waiting.now) premise others.items) }
{
    let mut found = Vec::new(alloc);
    push_beside(
        alloc,
        index,
        store,
        waiting,
        premise,
        &store.clauses()[premise],
        &mut found,
    )?;
    put_in_order(&mut found);
    let others = taken_up(alloc, found.as_slice(), store, waiting, premise)?;
    Ok(others)
}

/// Puts the numbers in order, each once. `n log n`.
fn put_in_order(numbers: &mut Vec<usize>)
    ensures { (b : ℕ) → OneOf b numbers.new.items ↔ OneOf b numbers.old.items }
{
    numbers.sort_unstable();
    numbers.dedup();
}

/// Those of the candidates that are live and don't wait, without the premise. Logarithmic in the live clauses for each.
fn taken_up(
    alloc: Global,
    candidates: &[usize],
    store: &Store,
    waiting: &Waiting,
    premise: usize,
) -> Result<Vec<usize>, Memory>
    ensures live { IfOk result (λ others. (k : ℕ) → OneOf k others.items → OneOf k store.now.live) }
    ensures every { IfOk result (λ others. (k : ℕ) → OneOf k candidates.now → OneOf k store.now.live
        → (OneOf k (numbers waiting.now) → ⊥) → (k ≡ premise → ⊥) → OneOf k others.items) }
{
    let mut others = Vec::new(alloc);
    'candidates: for i in 0..candidates.len() {
        let number = candidates[i];
        if is_taken_up(store, waiting, premise, number) {
            others.push(number)?;
        }
    }
    Ok(others)
}

/// Whether the clause of this number was taken up before the premise: it is live, another one, and doesn't wait. Logarithmic in the live
/// clauses.
fn is_taken_up(store: &Store, waiting: &Waiting, premise: usize, number: usize) -> bool
    ensures live { result ≡ true → OneOf number store.now.live }
    ensures every { OneOf number store.now.live → (OneOf number (numbers waiting.now) → ⊥)
        → (number ≡ premise → ⊥) → result ≡ true }
{
    if number == premise {
        return false;
    }
    if waiting.has(number) {
        return false;
    }
    store.is_live(number)
}

/// Appends what is beside the greatest element of the premise, which is this clause: the rules work on no other.
fn push_beside(
    alloc: Global,
    index: &Index,
    store: &Store,
    waiting: &Waiting,
    premise: usize,
    clause: &Clause,
    found: &mut Vec<usize>,
) -> Result<(), Memory>
    requires { (e : Elem) → OneOf e clause.now → IsHad (Stands store.now.live (numbers waiting.now) premise) store.now.clauses e }
    ensures { OnOk result (Gains (λ m. (e : Elem) × Eligible index.now.normal e clause.now
        × IsBeside index.now.normal (Stands store.now.live (numbers waiting.now) premise) store.now.clauses e m) found.old.items found.new.items) }
{
    let Some(i) = greatest(clause, index.normal()) else {
        return Ok(());
    };
    push_beside_elem(
        alloc,
        index,
        store,
        waiting,
        premise,
        &clause.elems()[i],
        found,
    )
}

/// Appends what is beside an element that the premise has.
fn push_beside_elem(
    alloc: Global,
    index: &Index,
    store: &Store,
    waiting: &Waiting,
    premise: usize,
    elem: &Elem,
    found: &mut Vec<usize>,
) -> Result<(), Memory>
    requires { IsHad (Stands store.now.live (numbers waiting.now) premise) store.now.clauses elem.now }
    ensures { OnOk result (Gains (IsBeside index.now.normal (Stands store.now.live (numbers waiting.now) premise) store.now.clauses elem.now)
        found.old.items found.new.items) }
{
    match elem {
        Elem::Plain(atom) => {
            push_by_con(alloc, index, store, waiting, premise, *atom, found)?;
            push_universal(index, store, *atom, found)?;
            Ok(())
        }
        Elem::Exist(_, _) => {
            push_exist(alloc, index, store, found)?;
            Ok(())
        }
    }
}

/// Appends what is beside the atom by All. Constant time where no axiom has the atom.
fn push_universal(
    index: &Index,
    store: &Store,
    atom: Atom,
    found: &mut Vec<usize>,
) -> Result<(), Memory>
    ensures { OnOk result (Gains (IsBesideUniversal index.now.normal store.now.clauses atom)
        found.old.items found.new.items) }
{
    if has_universal(index, atom) {
        store.push_with_existentials(found)?;
    }
    Ok(())
}

/// Numbers, those of all atoms of the store among them, where a walk over them may cost less than one over so many axioms. Linear in them.
fn numbers_in_place_of(
    alloc: Global,
    store: &Store,
    axioms: usize,
) -> Result<Option<Vec<u64>>, Memory>
    ensures { IfOk result (λ some.
        IfSome some (λ atoms. HasAllAtoms store.now.clauses atoms.items)) }
{
    if axioms <= FEW {
        return Ok(None);
    }
    store.atom_numbers(alloc, axioms)
}

/// The atom of this number, if it is in range. Constant time.
fn atom_of(index: &Index, number: u64) -> Option<Atom>
    ensures { MatchOption result (number < index.now.normal.atoms → ⊥)
        (λ atom. (atom ≡ number) × (number < index.now.normal.atoms)) }
{
    if number < index.normal().atoms as u64 {
        Some(Atom(number as u32))
    } else {
        None
    }
}

/// Appends what is beside an existential by All. Linear in the universals or in the elements of the store, whichever are fewer.
fn push_exist(
    alloc: Global,
    index: &Index,
    store: &Store,
    found: &mut Vec<usize>,
) -> Result<(), Memory>
    ensures { OnOk result (Gains (IsBesideExist index.now.normal store.now.clauses) found.old.items
        found.new.items) }
{
    let universals = index.normal().n4.items().len();
    match numbers_in_place_of(alloc, store, universals)? {
        Some(atoms) => {
            push_by_atoms(index, store, atoms.as_slice(), found)?;
        }
        None => {
            push_by_universals(index, store, found)?;
        }
    }
    Ok(())
}

/// The same by a walk over the universals.
fn push_by_universals(index: &Index, store: &Store, found: &mut Vec<usize>) -> Result<(), Memory>
    ensures { OnOk result (Gains (IsBesideExist index.now.normal store.now.clauses) found.old.items
        found.new.items) }
{
    let universals = index.normal().n4.items();
    'universals: for i in 0..universals.len() {
        let universal = &universals[i];
        store.push_with_atom(universal.atom, found)?;
    }
    Ok(())
}

/// The same by a walk over the numbers of the store's atoms.
fn push_by_atoms(
    index: &Index,
    store: &Store,
    atoms: &[u64],
    found: &mut Vec<usize>,
) -> Result<(), Memory>
    requires { HasAllAtoms store.now.clauses atoms.now }
    ensures { OnOk result (Gains (IsBesideExist index.now.normal store.now.clauses) found.old.items
        found.new.items) }
{
    'atoms: for i in 0..atoms.len() {
        push_if_universal(index, store, atoms[i], found)?;
    }
    Ok(())
}

/// Appends the clauses with the atom of this number, where a universal has it.
fn push_if_universal(
    index: &Index,
    store: &Store,
    number: u64,
    found: &mut Vec<usize>,
) -> Result<(), Memory>
    ensures { OnOk result (Gains (IsBesideByUniversal index.now.normal store.now.clauses number)
        found.old.items found.new.items) }
{
    let Some(atom) = atom_of(index, number) else {
        return Ok(());
    };
    if has_universal(index, atom) {
        store.push_with_atom(atom, found)?;
    }
    Ok(())
}

/// Whether a universal has the atom. Constant time.
fn has_universal(index: &Index, atom: Atom) -> bool
    ensures { (result ≡ true) ↔ ((t : Triple) × OneOf t index.now.normal.n4 × (t.atom ≡ atom)) }
{
    !alls(index, atom).is_empty()
}

/// Appends what is beside the atom by Con.
///
/// A look at each axiom with the atom on the left; or, where these are more than a few, more than the elements of the store, and more
/// than the axioms that the index files under its atoms, at each of the latter.
fn push_by_con(
    alloc: Global,
    index: &Index,
    store: &Store,
    waiting: &Waiting,
    premise: usize,
    atom: Atom,
    found: &mut Vec<usize>,
) -> Result<(), Memory>
    requires { IsHad (Stands store.now.live (numbers waiting.now) premise) store.now.clauses (Plain atom) }
    ensures { OnOk result (Gains (IsBesideByCon index.now.normal (Stands store.now.live (numbers waiting.now) premise) store.now.clauses atom)
        found.old.items found.new.items) }
{
    let all = with_left(index, atom);
    let own = filed(index, atom);
    if own.len() < all.len() {
        push_by_fewer(alloc, index, store, waiting, premise, all, atom, found)?;
        return Ok(());
    }
    push_by_axioms(index, store, waiting, premise, all, atom, found)?;
    Ok(())
}

/// The same, where the index files fewer of these axioms under the atom itself.
fn push_by_fewer(
    alloc: Global,
    index: &Index,
    store: &Store,
    waiting: &Waiting,
    premise: usize,
    all: &[usize],
    atom: Atom,
    found: &mut Vec<usize>,
) -> Result<(), Memory>
    requires numbers { AreNumbers index.now.normal.n1 all.now }
    requires every { HasAllWith index.now.normal.n1 atom all.now }
    requires filing { atom < index.now.normal.atoms
        → IsFiling index.now.normal.n1 index.now.normal.atoms index.now.filed }
    requires had { IsHad (Stands store.now.live (numbers waiting.now) premise) store.now.clauses (Plain atom) }
    ensures { OnOk result (Gains (IsBesideByCon index.now.normal (Stands store.now.live (numbers waiting.now) premise) store.now.clauses atom)
        found.old.items found.new.items) }
{
    if let Some(atoms) = numbers_in_place_of(alloc, store, all.len())? {
        if are_fewer(index, atoms.as_slice(), all.len()) {
            push_by_filed(
                index,
                store,
                waiting,
                premise,
                atoms.as_slice(),
                atom,
                found,
            )?;
            return Ok(());
        }
    }
    push_by_axioms(index, store, waiting, premise, all, atom, found)?;
    Ok(())
}

/// Whether the index files fewer axioms than `limit` under these atoms. Linear in the atoms. It decides on a cost alone, so nothing is
/// said of it.
fn are_fewer(index: &Index, atoms: &[u64], limit: usize) -> bool {
    let mut left = limit;
    for number in atoms {
        let count = count_filed(index, *number);
        if left <= count {
            return false;
        }
        left -= count;
    }
    true
}

/// How many axioms the index files under the atom of this number. Constant time. Nothing is said of it, as of `are_fewer`.
fn count_filed(index: &Index, number: u64) -> usize {
    match atom_of(index, number) {
        Some(atom) => filed(index, atom).len(),
        None => 0,
    }
}

/// Appends what is beside the atom by the axioms that the index files under the atoms of the store. A look at each of these axioms.
fn push_by_filed(
    index: &Index,
    store: &Store,
    waiting: &Waiting,
    premise: usize,
    atoms: &[u64],
    atom: Atom,
    found: &mut Vec<usize>,
) -> Result<(), Memory>
    requires all { HasAllAtoms store.now.clauses atoms.now }
    requires filing { atom < index.now.normal.atoms
        → IsFiling index.now.normal.n1 index.now.normal.atoms index.now.filed }
    requires had { IsHad (Stands store.now.live (numbers waiting.now) premise) store.now.clauses (Plain atom) }
    ensures { OnOk result (Gains (IsBesideByCon index.now.normal (Stands store.now.live (numbers waiting.now) premise) store.now.clauses atom)
        found.old.items found.new.items) }
{
    'atoms: for i in 0..atoms.len() {
        push_by_number(index, store, waiting, premise, atoms[i], atom, found)?;
    }
    Ok(())
}

/// Appends what is beside the atom by the axioms that the index files under the atom of this number. A look at each of them.
fn push_by_number(
    index: &Index,
    store: &Store,
    waiting: &Waiting,
    premise: usize,
    number: u64,
    atom: Atom,
    found: &mut Vec<usize>,
) -> Result<(), Memory>
    requires { IsHad (Stands store.now.live (numbers waiting.now) premise) store.now.clauses (Plain atom) }
    ensures { OnOk result (Gains
        (IsBesideByFiled index.now.normal index.now.filed (Stands store.now.live (numbers waiting.now) premise) store.now.clauses atom number)
        found.old.items found.new.items) }
{
    let Some(at) = atom_of(index, number) else {
        return Ok(());
    };
    push_by_axioms(
        index,
        store,
        waiting,
        premise,
        filed(index, at),
        atom,
        found,
    )?;
    Ok(())
}

/// Appends what is beside the atom by the axioms of these numbers. A look at each.
fn push_by_axioms(
    index: &Index,
    store: &Store,
    waiting: &Waiting,
    premise: usize,
    axioms: &[usize],
    atom: Atom,
    found: &mut Vec<usize>,
) -> Result<(), Memory>
    requires numbers { AreNumbers index.now.normal.n1 axioms.now }
    requires had { IsHad (Stands store.now.live (numbers waiting.now) premise) store.now.clauses (Plain atom) }
    ensures { OnOk result (Gains (IsBesideByOne index.now.normal (Stands store.now.live (numbers waiting.now) premise) store.now.clauses atom axioms.now)
        found.old.items found.new.items) }
{
    let all = index.normal().n1.items();
    'axioms: for i in 0..axioms.len() {
        let conj = &all[axioms[i]];
        push_by_left(store, waiting, premise, conj.left.items(), atom, found)?;
    }
    Ok(())
}

/// Appends what is beside the atom by Con with this left side. The cost of `may_all_stand`, and, where the axiom can fire, the clauses with
/// the other atoms, with two look-ups for each.
fn push_by_left(
    store: &Store,
    waiting: &Waiting,
    premise: usize,
    left: &[Atom],
    atom: Atom,
    found: &mut Vec<usize>,
) -> Result<(), Memory>
    requires { IsHad (Stands store.now.live (numbers waiting.now) premise) store.now.clauses (Plain atom) }
    ensures { OnOk result (Gains (IsBesideLeft (Stands store.now.live (numbers waiting.now) premise) store.now.clauses atom left.now) found.old.items
        found.new.items) }
{
    if !may_all_stand(store, waiting, premise, left) {
        return Ok(());
    }
    let Some(place) = place_of(left, atom) else {
        return Ok(());
    };
    push_others(store, left, place, found)?;
    Ok(())
}

/// The first place of the atom. Linear in the atoms.
fn place_of(atoms: &[Atom], atom: Atom) -> Option<usize>
    ensures { MatchOption result (OneOf atom atoms.now → ⊥)
        (λ i. (i < length atoms.now) × (slice_index_or atoms.now i 0 ≡ atom)) }
{
    'atoms: for i in 0..atoms.len() {
        let at = atoms[i];
        if at.0 == atom.0 {
            return Some(i);
        }
    }
    None
}

/// Whether each of the atoms may stand in the premise or in a clause that was taken up: true wherever each does.
///
/// They are asked for from both ends. The atoms of a wide left side mostly come in the order in which they stand there, or in the other, so
/// that the last to come is among the first that are asked for. Two look-ups for each that is asked for, and a look at a few clauses.
fn may_all_stand(store: &Store, waiting: &Waiting, premise: usize, atoms: &[Atom]) -> bool
    ensures { ((b : ℕ) → OneOf b atoms.now → IsHad (Stands store.now.live (numbers waiting.now) premise) store.now.clauses (Plain b))
        → result ≡ true }
{
    let count = atoms.len();
    'atoms: for i in 0..count.div_ceil(2) {
        if !may_stand(store, waiting, premise, atoms[i]) {
            return false;
        }
        if !may_stand(store, waiting, premise, atoms[count - 1 - i]) {
            return false;
        }
    }
    true
}

/// Whether the atom may stand in the premise or in a clause that was taken up: true wherever it does. Two look-ups, and a look at a few
/// clauses.
fn may_stand(store: &Store, waiting: &Waiting, premise: usize, atom: Atom) -> bool
    ensures { IsHad (Stands store.now.live (numbers waiting.now) premise) store.now.clauses (Plain atom) → result ≡ true }
{
    let (ending, going_on) = store.with_atom(atom);
    may_have_one(store, waiting, premise, ending) || may_have_one(store, waiting, premise, going_on)
}

/// Whether the premise or a clause that was taken up has one of these numbers: true wherever one has, and of more than a few. Logarithmic in
/// the live clauses.
fn may_have_one(store: &Store, waiting: &Waiting, premise: usize, among: &[usize]) -> bool
    ensures { (m : ℕ) → OneOf m among.now → Stands store.now.live (numbers waiting.now) premise m
        → result ≡ true }
{
    if FEW < among.len() {
        return true;
    }
    'numbers: for i in 0..among.len() {
        if stands(store, waiting, premise, among[i]) {
            return true;
        }
    }
    false
}

/// Whether the number is that of the premise or of a clause that was taken up. Logarithmic in the live clauses.
fn stands(store: &Store, waiting: &Waiting, premise: usize, number: usize) -> bool
    ensures { Stands store.now.live (numbers waiting.now) premise number → result ≡ true }
{
    if number == premise {
        return true;
    }
    is_taken_up(store, waiting, premise, number)
}

/// Appends the clauses with the atoms at the other places. Two look-ups for each.
fn push_others(
    store: &Store,
    atoms: &[Atom],
    place: usize,
    found: &mut Vec<usize>,
) -> Result<(), Memory>
    ensures { OnOk result (Gains (λ m. (j : ℕ) × (j < length atoms.now) × (j ≡ place → ⊥)
        × HasElem store.now.clauses (Plain (slice_index_or atoms.now j 0)) m) found.old.items
        found.new.items) }
{
    'atoms: for i in 0..atoms.len() {
        if i != place {
            store.push_with_atom(atoms[i], found)?;
        }
    }
    Ok(())
}
