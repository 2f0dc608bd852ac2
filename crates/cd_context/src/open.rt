//! The names that live clauses leave open.
ghost use Rattle.std.specs.Prelude.{◌≡◌, ◌<◌, ◌⊎◌, ◌↔◌, ℕ, List, length, filter, IfOk, OnOk};
ghost use Rattle.cd_base.specs.Keys.{is_named};
ghost use Rattle.cd_base.specs.Lists.{OneOf};
ghost use Rattle.cd_clause.specs.Elements.{IsCase};
ghost use Rattle.cd_clause.specs.Numbers.{picked};
ghost use Rattle.cd_clause.specs.declared.elem.Elem.{Elem};
ghost use Rattle.cd_context.specs.OpenNames.{IsOpenName};

use cd_base::{Atom, Memory, Normal};
use cd_clause::Clause;
use cd_rules::push_eligible;
use std::alloc::Global;

/// The named atoms that are the greatest element of a clause of these numbers that has others, ascending, each once.
///
/// Linear in the numbers; of each longer clause without an existential its elements are compared; and `n log n` in the atoms.
pub(crate) fn open_names(
    alloc: Global,
    normal: &Normal,
    clauses: &[Clause],
    live: &[usize],
) -> Result<Vec<Atom>, Memory>
    requires { (n : ℕ) → OneOf n live.now → n < length clauses.now }
    ensures { IfOk result (λ names. (b : ℕ) → OneOf b names.items
        ↔ IsOpenName normal.now (picked clauses.now live.now) b) }
{
    let mut atoms = Vec::new(alloc);
    push_all_open(normal, clauses, live, &mut atoms)?;
    put_in_order(&mut atoms);
    let names = named_among(alloc, normal, &atoms);
    drop(atoms);
    names
}

/// Appends the atoms that are the greatest element of a clause of these numbers that has others.
fn push_all_open(
    normal: &Normal,
    clauses: &[Clause],
    live: &[usize],
    atoms: &mut Vec<u32>,
) -> Result<(), Memory>
    requires { (n : ℕ) → OneOf n live.now → n < length clauses.now }
    ensures { OnOk result ((b : ℕ) → OneOf b atoms.new.items
        ↔ (OneOf b atoms.old.items
        ⊎ ((c : List Elem) × OneOf c (picked clauses.now live.now) × IsCase normal.now b c))) }
{
    for i in 0..live.len() {
        let at = live[i];
        push_open(normal, &clauses[at], atoms)?;
    }
    Ok(())
}

/// Appends the atom that is the greatest element of the clause, if the clause has others. Constant time where it has none, and else linear in
/// the clause.
fn push_open(normal: &Normal, clause: &Clause, atoms: &mut Vec<u32>) -> Result<(), Memory>
    ensures { OnOk result ((b : ℕ) → OneOf b atoms.new.items
        ↔ (OneOf b atoms.old.items ⊎ IsCase normal.now b clause.now)) }
{
    if clause.elems().len() < 2 {
        return Ok(());
    }
    push_eligible(clause, normal, atoms)?;
    Ok(())
}

/// Puts the numbers in order, each once. `n log n`.
fn put_in_order(numbers: &mut Vec<u32>)
    ensures { (b : ℕ) → OneOf b numbers.new.items ↔ OneOf b numbers.old.items }
{
    numbers.sort_unstable();
    numbers.dedup();
}

/// Those of the atoms that are classes of the document, in their order. Linear in the atoms.
fn named_among(alloc: Global, normal: &Normal, atoms: &[u32]) -> Result<Vec<Atom>, Memory>
    ensures { IfOk result (λ names. names.items ≡ filter (is_named normal.now) atoms.now) }
{
    let mut names = Vec::new(alloc);
    for atom in atoms {
        if normal.is_named(Atom(*atom)) {
            names.push(Atom(*atom))?;
        }
    }
    Ok(names)
}
