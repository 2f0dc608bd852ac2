//! The rule All.
ghost use Rattle.std.specs.Prelude.{◌<◌, ◌∷◌, ◌++◌, ℕ, length, IfOk, IsOk};
ghost use Rattle.cd_base.specs.Keys.{key_with, plain};
ghost use Rattle.cd_base.specs.Lists.{OneOf, SameSet};
ghost use Rattle.cd_clause.specs.declared.elem.Elem.TheVariants.{Exist};
ghost use Rattle.cd_base.specs.Appends.{Appends};
ghost use Rattle.cd_rules.specs.Among.{Among};
ghost use Rattle.cd_rules.specs.Facts.{IsPicked};
ghost use Rattle.cd_rules.specs.Steps.{IsAllOfAtom, IsAllOfExist};
ghost use Rattle.cd_rules.specs.Walks.{ByOne, IsAllBy, IsAllWithAtom, IsAllWithExist};

use crate::look_ups::{alls, is_under};
use cd_base::{Atom, Key, Lit, Memory, Role, Triple};
use cd_clause::{Clause, Elem, greatest};
use cd_index::Index;

/// ```text
/// M + some R.K     N + A     every S-edge from an A goes to a B     R under S
/// ---------------------------------------------------------------------------
///                 M + N + some R.(K with B)
/// ```
///
/// Here `others` is N, and the clauses with the numbers in `choices` have the existentials. Without an axiom for A it costs nothing; else
/// a walk over these clauses.
pub(crate) fn all_of_atom(
    index: &Index,
    clauses: &[Clause],
    choices: &[usize],
    atom: Atom,
    others: &Clause,
    out: &mut Vec<Clause>,
) -> Result<(), Memory>
    requires choices { (k : ℕ) → OneOf k choices.now → k < length clauses.now }
    ensures { Appends Among (IsAllOfAtom index.now.normal
        (IsPicked clauses.now choices.now) atom others.now)
        (IsOk result) out.old.items out.new.items }
{
    let triples = alls(index, atom);
    if triples.is_empty() {
        return Ok(());
    }
    for number in choices {
        all_with_exist(index, triples, &clauses[*number], others, out)?;
    }
    Ok(())
}

/// The rule by these axioms for A, with a clause whose greatest element is an existential. `others` is N. One walk over the clause, and for
/// an existential then as `all_by`.
fn all_with_exist(
    index: &Index,
    triples: &[Triple],
    clause: &Clause,
    others: &Clause,
    out: &mut Vec<Clause>,
) -> Result<(), Memory>
    ensures { Appends Among (IsAllWithExist index.now.normal triples.now others.now clause.now)
        (IsOk result) out.old.items out.new.items }
{
    let Some(i) = greatest(clause, index.normal()) else {
        return Ok(());
    };
    match &clause.elems()[i] {
        Elem::Plain(_) => Ok(()),
        Elem::Exist(role, key) => {
            all_by(index, triples, *role, key, &clause.without(i)?, others, out)
        }
    }
}

/// The same rule, where `others` is M, and the clauses with the numbers in `choices` have the atoms. A walk over these clauses.
pub(crate) fn all_of_exist(
    index: &Index,
    clauses: &[Clause],
    choices: &[usize],
    role: Role,
    key: &Key,
    others: &Clause,
    out: &mut Vec<Clause>,
) -> Result<(), Memory>
    requires choices { (k : ℕ) → OneOf k choices.now → k < length clauses.now }
    ensures { Appends Among (IsAllOfExist index.now.normal
        (IsPicked clauses.now choices.now) role key.now others.now)
        (IsOk result) out.old.items out.new.items }
{
    for number in choices {
        all_with_atom(index, &clauses[*number], role, key, others, out)?;
    }
    Ok(())
}

/// The rule for an existential, with a clause whose greatest element is an atom. `others` is M. One walk over the clause, and for an atom
/// with axioms then as `all_by`.
fn all_with_atom(
    index: &Index,
    clause: &Clause,
    role: Role,
    key: &Key,
    others: &Clause,
    out: &mut Vec<Clause>,
) -> Result<(), Memory>
    ensures { Appends Among (IsAllWithAtom index.now.normal role key.now others.now clause.now)
        (IsOk result) out.old.items out.new.items }
{
    let Some(i) = greatest(clause, index.normal()) else {
        return Ok(());
    };
    match &clause.elems()[i] {
        Elem::Exist(_, _) => Ok(()),
        Elem::Plain(atom) => {
            let triples = alls(index, *atom);
            if triples.is_empty() {
                return Ok(());
            }
            all_by(index, triples, role, key, others, &clause.without(i)?, out)
        }
    }
}

/// The conclusions by these axioms for the atom, for an existential and the rests of both premises: `left` is M, and `right` is N. Linear
/// in the axioms, and in both rests for each whose role is above.
fn all_by(
    index: &Index,
    triples: &[Triple],
    role: Role,
    key: &Key,
    left: &Clause,
    right: &Clause,
    out: &mut Vec<Clause>,
) -> Result<(), Memory>
    ensures { Appends Among (ByOne (IsAllBy index.now.normal role key.now left.now right.now)
        triples.now) (IsOk result) out.old.items out.new.items }
{
    for triple in triples {
        all_by_one(index, triple, role, key, left, right, out)?;
    }
    Ok(())
}

/// The conclusion by one axiom for the atom. Where the role is under that of the axiom it is linear in both rests, else it costs that
/// test alone.
fn all_by_one(
    index: &Index,
    triple: &Triple,
    role: Role,
    key: &Key,
    left: &Clause,
    right: &Clause,
    out: &mut Vec<Clause>,
) -> Result<(), Memory>
    ensures { Appends Among (IsAllBy index.now.normal role key.now left.now right.now triple.now)
        (IsOk result) out.old.items out.new.items }
{
    if !is_under(index, role, triple.role) {
        return Ok(());
    }
    out.push(concluded(role, key, triple.other, left, right)?)?;
    Ok(())
}

/// M + N + some R.(K with B), where B is `other`. Linear in both rests and the literals of their keys.
fn concluded(
    role: Role,
    key: &Key,
    other: Atom,
    left: &Clause,
    right: &Clause,
) -> Result<Clause, Memory>
    ensures { IfOk result (λ clause.
        SameSet clause (Exist role (key_with (plain other) key.now) ∷ (left.now ++ right.now))) }
{
    let narrowed = key.with(Lit {
        atom: other,
        negated: false,
    })?;
    left.join(right)?.with(Elem::Exist(role, narrowed))
}
