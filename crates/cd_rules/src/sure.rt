//! The rule Sure.
ghost use Rattle.std.specs.Prelude.{◌<◌, ℕ, length, IsOk, List};
ghost use Rattle.cd_base.specs.Lists.{OneOf};
ghost use Rattle.cd_base.specs.Appends.{Appends};
ghost use Rattle.cd_rules.specs.Among.{Among};
ghost use Rattle.cd_rules.specs.Steps.{IsSureFrom, IsSureOf};
ghost use Rattle.cd_rules.specs.Uses.{FromSure};
ghost use Rattle.cd_rules.specs.Walks.{IsSureBy, IsSureByFact, IsSureWith};

use crate::existential::{are_same, rest_beside};
use crate::facts::SureFact;
use crate::look_ups::{backs, is_under};
use cd_base::{Atom, Key, Memory, Role, Triple};
use cd_clause::{Clause, Elem};
use cd_index::Index;

/// ```text
/// M + some R.K     A in the context of K     what has an S-edge to an A is in B     R under S
/// -------------------------------------------------------------------------------------------
///                                       M + B
/// ```
///
/// `others` is M, and A is `atom`. Linear in the axioms for A, each time in `others`.
pub(crate) fn sure(
    index: &Index,
    role: Role,
    atom: Atom,
    others: &Clause,
    out: &mut Vec<Clause>,
) -> Result<(), Memory>
    ensures { Appends Among (IsSureOf index.now.normal role atom others.now)
        (IsOk result) out.old.items out.new.items }
{
    for triple in backs(index, atom) {
        sure_by(index, triple, role, others, out)?;
    }
    Ok(())
}

/// The rule Sure by one axiom for A. Where the role is under that of the axiom it is linear in `others`, else it costs that test alone.
fn sure_by(
    index: &Index,
    triple: &Triple,
    role: Role,
    others: &Clause,
    out: &mut Vec<Clause>,
) -> Result<(), Memory>
    ensures { Appends Among (IsSureBy index.now.normal role others.now triple.now)
        (IsOk result) out.old.items out.new.items }
{
    if !is_under(index, role, triple.role) {
        return Ok(());
    }
    out.push(others.with(Elem::Plain(triple.other))?)?;
    Ok(())
}

/// The rule Sure for one existential and each of the facts that are of its role and key. Linear in the facts.
pub(crate) fn sure_from(
    index: &Index,
    facts: &[SureFact],
    role: Role,
    key: &Key,
    others: &Clause,
    out: &mut Vec<Clause>,
) -> Result<(), Memory>
    ensures { Appends Among (IsSureFrom index.now.normal facts.now role key.now others.now)
        (IsOk result) out.old.items out.new.items }
{
    for fact in facts {
        sure_by_fact(index, fact, role, key, others, out)?;
    }
    Ok(())
}

/// The rule Sure for one existential and one fact, if that is of its role and key. Linear in the literals of the keys, and then as `sure`.
fn sure_by_fact(
    index: &Index,
    fact: &SureFact,
    role: Role,
    key: &Key,
    others: &Clause,
    out: &mut Vec<Clause>,
) -> Result<(), Memory>
    ensures { Appends Among (IsSureByFact index.now.normal role key.now others.now fact.now)
        (IsOk result) out.old.items out.new.items }
{
    if !are_same(fact.role, &fact.key, role, key) {
        return Ok(());
    }
    sure(index, role, fact.atom, others, out)
}

/// Appends every conclusion that uses this fact, with the live clauses in which its existential is eligible, and no other.
///
/// Linear in the live clauses. `Memory` leaves such conclusions alone behind.
pub fn on_sure(
    index: &Index,
    clauses: &[Clause],
    live: &[usize],
    fact: &SureFact,
    out: &mut Vec<Clause>,
) -> Result<(), Memory>
    requires live { (k : ℕ) → OneOf k live.now → k < length clauses.now }
    ensures { (key : List ℕ) → Appends Among
        (FromSure index.now.normal key clauses.now live.now fact.now)
        (IsOk result) out.old.items out.new.items }
{
    for number in live {
        sure_with(index, &clauses[*number], fact, out)?;
    }
    Ok(())
}

/// The rule Sure for one fact and one clause, if the fact's existential is eligible in that. Linear in the clause, and then as `sure`.
fn sure_with(
    index: &Index,
    clause: &Clause,
    fact: &SureFact,
    out: &mut Vec<Clause>,
) -> Result<(), Memory>
    ensures { Appends Among (IsSureWith index.now.normal fact.now clause.now)
        (IsOk result) out.old.items out.new.items }
{
    match rest_beside(index, clause, fact.role, &fact.key)? {
        Some(others) => sure(index, fact.role, fact.atom, &others, out),
        None => Ok(()),
    }
}
