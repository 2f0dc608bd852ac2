//! The rule Back.
ghost use Rattle.std.specs.Prelude.{◌<◌, ◌∷◌, ℕ, length, IfOk, IsOk, List};
ghost use Rattle.cd_base.specs.Keys.{key_with, negated};
ghost use Rattle.cd_base.specs.Lists.{OneOf, SameSet};
ghost use Rattle.cd_clause.specs.declared.elem.Elem.TheVariants.{Plain, Exist};
ghost use Rattle.cd_base.specs.Appends.{Appends};
ghost use Rattle.cd_rules.specs.Among.{Among};
ghost use Rattle.cd_rules.specs.Steps.{IsBackFrom, IsBackOf};
ghost use Rattle.cd_rules.specs.Uses.{FromBack};
ghost use Rattle.cd_rules.specs.Walks.{IsBackBy, IsBackByFact, IsBackWith};

use crate::existential::{are_same, rest_beside};
use crate::facts::BackFact;
use crate::look_ups::{backs, is_under};
use cd_base::{Atom, Key, Lit, Memory, Role, Triple};
use cd_clause::{Clause, Elem};
use cd_index::Index;

/// ```text
/// M + some R.K     N + A in the context of K     what has an S-edge to an A is in B     R under S
/// -----------------------------------------------------------------------------------------------
///                          M + B + some R.(K with not A)
/// ```
///
/// `others` is M, and A is `atom`. Linear in the axioms for A, each time in `others`.
pub(crate) fn back(
    index: &Index,
    role: Role,
    key: &Key,
    atom: Atom,
    others: &Clause,
    out: &mut Vec<Clause>,
) -> Result<(), Memory>
    ensures { Appends Among (IsBackOf index.now.normal role key.now atom others.now)
        (IsOk result) out.old.items out.new.items }
{
    for triple in backs(index, atom) {
        back_by(index, triple, role, key, atom, others, out)?;
    }
    Ok(())
}

/// The rule Back by one axiom for A. Where the role is under that of the axiom it is linear in `others`, else it costs that test alone.
fn back_by(
    index: &Index,
    triple: &Triple,
    role: Role,
    key: &Key,
    atom: Atom,
    others: &Clause,
    out: &mut Vec<Clause>,
) -> Result<(), Memory>
    ensures { Appends Among (IsBackBy index.now.normal role key.now atom others.now triple.now)
        (IsOk result) out.old.items out.new.items }
{
    if !is_under(index, role, triple.role) {
        return Ok(());
    }
    out.push(concluded(role, key, atom, triple.other, others)?)?;
    Ok(())
}

/// M + B + some R.(K with not A), where A is `atom` and B is `other`. Linear in `others` and the literals of its keys.
fn concluded(
    role: Role,
    key: &Key,
    atom: Atom,
    other: Atom,
    others: &Clause,
) -> Result<Clause, Memory>
    ensures { IfOk result (λ clause.
        SameSet clause (Plain other ∷ Exist role (key_with (negated atom) key.now) ∷ others.now)) }
{
    let narrowed = key.with(Lit {
        atom,
        negated: true,
    })?;
    others
        .with(Elem::Exist(role, narrowed))?
        .with(Elem::Plain(other))
}

/// The rule Back for one existential and each of the facts that are of its role and key. Linear in the facts.
pub(crate) fn back_from(
    index: &Index,
    facts: &[BackFact],
    role: Role,
    key: &Key,
    others: &Clause,
    out: &mut Vec<Clause>,
) -> Result<(), Memory>
    ensures { Appends Among (IsBackFrom index.now.normal facts.now role key.now others.now)
        (IsOk result) out.old.items out.new.items }
{
    for fact in facts {
        back_by_fact(index, fact, role, key, others, out)?;
    }
    Ok(())
}

/// The rule Back for one existential and one fact, if that is of its role and key. Linear in the literals of the keys, and then as `back`.
fn back_by_fact(
    index: &Index,
    fact: &BackFact,
    role: Role,
    key: &Key,
    others: &Clause,
    out: &mut Vec<Clause>,
) -> Result<(), Memory>
    ensures { Appends Among (IsBackByFact index.now.normal role key.now others.now fact.now)
        (IsOk result) out.old.items out.new.items }
{
    if !are_same(fact.role, &fact.key, role, key) {
        return Ok(());
    }
    back(index, role, key, fact.atom, others, out)
}

/// Appends every conclusion that uses this fact, with the live clauses in which its existential is eligible, and no other.
///
/// Linear in the live clauses. `Memory` leaves such conclusions alone behind.
pub fn on_back(
    index: &Index,
    clauses: &[Clause],
    live: &[usize],
    fact: &BackFact,
    out: &mut Vec<Clause>,
) -> Result<(), Memory>
    requires live { (k : ℕ) → OneOf k live.now → k < length clauses.now }
    ensures { (key : List ℕ) → Appends Among
        (FromBack index.now.normal key clauses.now live.now fact.now)
        (IsOk result) out.old.items out.new.items }
{
    for number in live {
        back_with(index, &clauses[*number], fact, out)?;
    }
    Ok(())
}

/// The rule Back for one fact and one clause, if the fact's existential is eligible in that. Linear in the clause, and then as `back`.
fn back_with(
    index: &Index,
    clause: &Clause,
    fact: &BackFact,
    out: &mut Vec<Clause>,
) -> Result<(), Memory>
    ensures { Appends Among (IsBackWith index.now.normal fact.now clause.now)
        (IsOk result) out.old.items out.new.items }
{
    match rest_beside(index, clause, fact.role, &fact.key)? {
        Some(others) => back(index, fact.role, &fact.key, fact.atom, &others, out),
        None => Ok(()),
    }
}
