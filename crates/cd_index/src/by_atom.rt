//! Axioms by atom.
ghost use Rattle.std.specs.Prelude.{◌≡◌, ◌<◌, ◌++◌, ◌∷◌, [], if◌then◌else◌, IsTrue, nat_lt, length, slice_index_or, All, IfOk, OnOk, MatchOption};
ghost use Rattle.std.specs.List.{list_all};
ghost use Rattle.cd_base.specs.Normal.{are_below, has_atoms_below};
ghost use Rattle.cd_index.specs.Index.{at_atom, ends_with, free_numbers, has, numbers_with, IsFiling};
ghost use Rattle.cd_index.specs.Lists.{AreLists};

use crate::lists::empty_lists;
use cd_base::{Atom, Conj, Memory, Seq, Triple};
use std::alloc::Global;

/// The numbers of the axioms with an empty left side, ascending. Linear in the axioms.
pub(crate) fn free_numbers(alloc: Global, axioms: &[Conj]) -> Result<Seq<usize>, Memory>
    ensures { IfOk result (λ free. free ≡ free_numbers axioms.now) }
{
    let mut free = Vec::new(alloc);
    for (number, axiom) in axioms.iter().enumerate() {
        if axiom.left.items().is_empty() {
            free.push(number)?;
        }
    }
    Ok(Seq::of(free))
}

/// For each atom the numbers of the axioms with it in the left side, ascending. Linear in the atoms and the left sides.
pub(crate) fn numbers_by_atom(
    alloc: Global,
    axioms: &[Conj],
    atoms: u32,
) -> Result<Vec<Seq<usize>>, Memory>
    requires { IsTrue (list_all (has_atoms_below atoms) axioms.now) }
    ensures { IfOk result (λ lists. AreLists atoms lists.items (numbers_with axioms.now)) }
{
    let mut lists = empty_lists(alloc, atoms as usize)?;
    for (number, axiom) in axioms.iter().enumerate() {
        note(&mut lists, axiom.left.items(), number)?;
    }
    Ok(lists)
}

/// Puts the number at the end of the list of each of the atoms, once. Linear in the atoms.
fn note(lists: &mut Vec<Seq<usize>>, atoms: &[Atom], number: usize) -> Result<(), Memory>
    requires within { IsTrue (are_below (length lists.old.items) atoms.now) }
    requires earlier { All (λ list. All (λ k. k < number) list) lists.old.items }
    ensures { IfOk result (λ _. AreLists (length lists.old.items) lists.new.items
        (λ a. slice_index_or lists.old.items a []
        ++ (if has a atoms.now then number ∷ [] else []))) }
{
    for atom in atoms {
        push_once(&mut lists[atom.0 as usize], number)?;
    }
    Ok(())
}

/// Puts the number at the end of the list, unless it stands there. Constant time, but for growing the list.
fn push_once(list: &mut Seq<usize>, number: usize) -> Result<(), Memory>
    ensures { OnOk result (list.new
        ≡ (if ends_with list.old number then list.old else list.old ++ number ∷ [])) }
{
    if !ends_with(list.items(), number) {
        list.push(number)?;
    }
    Ok(())
}

/// Whether this is the last number. Constant time.
fn ends_with(numbers: &[usize], number: usize) -> bool
    ensures { result ≡ ends_with numbers.now number }
{
    let count = numbers.len();
    count > 0 && numbers[count - 1] == number
}

/// For each atom the numbers of the axioms filed under it. Linear in the atoms and the left sides.
pub(crate) fn file_numbers(
    alloc: Global,
    axioms: &[Conj],
    lists: &[Seq<usize>],
    atoms: u32,
) -> Result<Vec<Seq<usize>>, Memory>
    requires within { IsTrue (list_all (has_atoms_below atoms) axioms.now) }
    requires lists { length lists.now ≡ atoms }
    ensures { IfOk result (λ filed. IsFiling axioms.now atoms filed.items) }
{
    let mut filed = empty_lists(alloc, atoms as usize)?;
    for (number, axiom) in axioms.iter().enumerate() {
        if let Some(atom) = rarest(lists, axiom.left.items()) {
            filed[atom.0 as usize].push(number)?;
        }
    }
    Ok(filed)
}

/// The first of these atoms whose list is shortest. Linear in the atoms.
fn rarest(lists: &[Seq<usize>], atoms: &[Atom]) -> Option<Atom>
    requires { IsTrue (are_below (length lists.now) atoms.now) }
    ensures { MatchOption result (atoms.now ≡ []) (λ atom. IsTrue (has atom atoms.now)) }
{
    let mut best: Option<Atom> = None;
    let mut fewest = usize::MAX;
    for atom in atoms {
        let count = lists[atom.0 as usize].items().len();
        if best.is_none() || count < fewest {
            best = Some(*atom);
            fewest = count;
        }
    }
    best
}

/// For each atom those with this `atom`, in their order. Linear in the atoms and the triples.
pub(crate) fn triples_by_atom(
    alloc: Global,
    triples: &[Triple],
    atoms: u32,
) -> Result<Vec<Seq<Triple>>, Memory>
    requires { IsTrue (list_all (λ triple. nat_lt triple.atom atoms) triples.now) }
    ensures { IfOk result (λ lists. AreLists atoms lists.items (at_atom triples.now)) }
{
    let mut lists = empty_lists(alloc, atoms as usize)?;
    for triple in triples {
        lists[triple.atom.0 as usize].push(*triple)?;
    }
    Ok(lists)
}
