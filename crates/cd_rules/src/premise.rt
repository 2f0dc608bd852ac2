//! All rules for one premise.
ghost use Rattle.std.specs.Prelude.{◌≡◌, ◌<◌, ◌∷◌, ℕ, length, IfOk, IsOk};
ghost use Rattle.cd_base.specs.Lists.{OneOf};
ghost use Rattle.cd_base.specs.Appends.{Appends};
ghost use Rattle.cd_rules.specs.Among.{Among};
ghost use Rattle.cd_rules.specs.Facts.{IsPicked};
ghost use Rattle.cd_rules.specs.Elems.{IsOfElem};
ghost use Rattle.cd_rules.specs.Steps.{IsOfAtom, IsOfExist};
ghost use Rattle.cd_rules.specs.Uses.{FromClause};

use crate::all::{all_of_atom, all_of_exist};
use crate::back::back_from;
use crate::con::con;
use crate::dead::dead_from;
use crate::ex::ex;
use crate::facts::{BackFact, DeadFact, SureFact};
use crate::neg::neg;
use crate::sure::sure_from;
use cd_base::{Atom, Key, Memory, Role};
use cd_clause::{Clause, Elem, greatest};
use cd_index::Index;
use std::alloc::Global;

/// Appends every conclusion of the context of `key` that uses the clause numbered `premise` on its greatest element, with other premises
/// that are that clause or live, on their greatest elements too, or among the facts; and no other.
///
/// `live` need have only such numbers as can be of use. The cost is that of the rules for the greatest element of the clause.
/// `Memory` leaves such conclusions alone behind.
pub fn on_clause(
    alloc: Global,
    index: &Index,
    key: &Key,
    clauses: &[Clause],
    live: &[usize],
    premise: usize,
    backs: &[BackFact],
    sures: &[SureFact],
    deads: &[DeadFact],
    out: &mut Vec<Clause>,
) -> Result<(), Memory>
    requires live { (k : ℕ) → OneOf k live.now → k < length clauses.now }
    requires premise { premise < length clauses.now }
    ensures { Appends Among (FromClause index.now.normal key.now clauses.now live.now premise
        (record { backs = backs.now; sures = sures.now; deads = deads.now }))
        (IsOk result) out.old.items out.new.items }
{
    let clause = &clauses[premise];
    match greatest(clause, index.normal()) {
        None => Ok(()),
        Some(i) => {
            let choices = choices_of(alloc, premise, live)?;
            let others = clause.without(i)?;
            let elems = clause.elems();
            on_elem(
                alloc, index, key, clauses, &choices, backs, sures, deads, &elems[i], &others, out,
            )
        }
    }
}

/// The numbers of the clauses that may stand beside the premise: its own, and the live ones. Linear in these.
fn choices_of(alloc: Global, premise: usize, live: &[usize]) -> Result<Vec<usize>, Memory>
    ensures { IfOk result (λ choices. choices.items ≡ premise ∷ live.now) }
{
    let mut choices = vec![in alloc; premise]?;
    choices.extend_from_slice(live)?;
    Ok(choices)
}

/// The rules that work on an element of the premise, whose rest is `others`. The cost is that of these rules.
fn on_elem(
    alloc: Global,
    index: &Index,
    key: &Key,
    clauses: &[Clause],
    choices: &[usize],
    backs: &[BackFact],
    sures: &[SureFact],
    deads: &[DeadFact],
    elem: &Elem,
    others: &Clause,
    out: &mut Vec<Clause>,
) -> Result<(), Memory>
    requires choices { (k : ℕ) → OneOf k choices.now → k < length clauses.now }
    ensures { Appends Among (IsOfElem index.now.normal key.now
        (IsPicked clauses.now choices.now)
        (record { backs = backs.now; sures = sures.now; deads = deads.now }) elem.now others.now)
        (IsOk result) out.old.items out.new.items }
{
    match elem {
        Elem::Plain(atom) => on_atom(alloc, index, key, clauses, choices, *atom, others, out),
        Elem::Exist(role, exist) => on_exist(
            index, clauses, choices, backs, sures, deads, *role, exist, others, out,
        ),
    }
}

/// The rules that work on an atom of the premise, whose rest is `others`.
fn on_atom(
    alloc: Global,
    index: &Index,
    key: &Key,
    clauses: &[Clause],
    choices: &[usize],
    atom: Atom,
    others: &Clause,
    out: &mut Vec<Clause>,
) -> Result<(), Memory>
    requires choices { (k : ℕ) → OneOf k choices.now → k < length clauses.now }
    ensures { Appends Among (IsOfAtom index.now.normal key.now
        (IsPicked clauses.now choices.now) atom others.now)
        (IsOk result) out.old.items out.new.items }
{
    neg(key, atom, others, out)?;
    ex(alloc, index, atom, others, out)?;
    con(alloc, index, clauses, choices, atom, others, out)?;
    all_of_atom(index, clauses, choices, atom, others, out)
}

/// The rules that work on an existential of the premise, whose rest is `others`.
fn on_exist(
    index: &Index,
    clauses: &[Clause],
    choices: &[usize],
    backs: &[BackFact],
    sures: &[SureFact],
    deads: &[DeadFact],
    role: Role,
    key: &Key,
    others: &Clause,
    out: &mut Vec<Clause>,
) -> Result<(), Memory>
    requires choices { (k : ℕ) → OneOf k choices.now → k < length clauses.now }
    ensures { Appends Among (IsOfExist index.now.normal
        (IsPicked clauses.now choices.now)
        (record { backs = backs.now; sures = sures.now; deads = deads.now }) role key.now others.now)
        (IsOk result) out.old.items out.new.items }
{
    back_from(index, backs, role, key, others, out)?;
    sure_from(index, sures, role, key, others, out)?;
    dead_from(deads, role, key, others, out)?;
    all_of_exist(index, clauses, choices, role, key, others, out)
}
