//! The rule Con.
ghost use Rattle.std.specs.Prelude.{◌≡◌, ◌<◌, ◌++◌, ℕ, length, map, remove, IsOk, IfOk};
ghost use Rattle.cd_base.specs.Lists.{OneOf, SameSet};
ghost use Rattle.cd_clause.specs.declared.elem.Elem.TheVariants.{Plain};
ghost use Rattle.cd_base.specs.Appends.{Appends};
ghost use Rattle.cd_rules.specs.Among.{Among};
ghost use Rattle.cd_rules.specs.Candidates.{AreCandidates};
ghost use Rattle.cd_rules.specs.Facts.{IsPicked};
ghost use Rattle.cd_rules.specs.Partners.{AreNumbered, AreThose, IsConFrom, IsConOf, IsConWith, IsJoin, IsJoinBy, IsUnion};
ghost use Rattle.cd_rules.specs.LookUps.{AreNumbers, HasAllWith};
ghost use Rattle.cd_rules.specs.Steps.{IsCon};
ghost use Rattle.cd_rules.specs.Walks.{ByOne};

use crate::atoms::without_atom;
use crate::candidates::{candidates, has_wide};
use crate::init::atoms_clause;
use crate::look_ups::with_left;
use crate::partners::{Partner, are_at_hand, partners_among};
use cd_base::{Atom, Conj, Memory};
use cd_clause::{Clause, Elem};
use cd_index::Index;
use std::alloc::Global;

/// ```text
/// N1 + A1  ..  Nn + An     A1 .. An -> B1 .. Bm
/// ---------------------------------------------
///       N1 + .. + Nn + B1 + .. + Bm
/// ```
///
/// `atom` is one of the Ai, `others` is its Ni, and the other premises are among the clauses with the numbers in `choices`.
///
/// Where each axiom with `atom` on the left has it there alone, the cost is that of their conclusions. Else there is a walk over the choices
/// for their greatest elements, and the cost of `con_with`.
pub(crate) fn con(
    alloc: Global,
    index: &Index,
    clauses: &[Clause],
    choices: &[usize],
    atom: Atom,
    others: &Clause,
    out: &mut Vec<Clause>,
) -> Result<(), Memory>
    requires choices { (k : ℕ) → OneOf k choices.now → k < length clauses.now }
    ensures { Appends Among (IsCon index.now.normal
        (IsPicked clauses.now choices.now) atom others.now)
        (IsOk result) out.old.items out.new.items }
{
    let normal = index.normal();
    let all = with_left(index, atom);
    if !has_wide(normal.n1.items(), all) {
        return con_by_each(alloc, index, all, clauses, &[], atom, others, out);
    }
    let partners = partners_among(alloc, normal, clauses, choices)?;
    con_with(
        alloc,
        index,
        all,
        clauses,
        partners.as_slice(),
        atom,
        others,
        out,
    )
}

/// The rule by the axioms with `atom` on the left, whose numbers are `all`, where the other premises are among the partners.
///
/// Where these axioms are more than a few, and more than those that are filed under the atom or under that of a partner, it tries of the
/// latter those with `atom` on the left: to find them it walks over these axioms, and puts the atoms in order. The cost is that of `con_by`
/// for each axiom that is tried.
fn con_with(
    alloc: Global,
    index: &Index,
    all: &[usize],
    clauses: &[Clause],
    partners: &[Partner],
    atom: Atom,
    others: &Clause,
    out: &mut Vec<Clause>,
) -> Result<(), Memory>
    requires numbers { AreNumbers index.now.normal.n1 all.now }
    requires every { HasAllWith index.now.normal.n1 atom all.now }
    requires partners { AreNumbered clauses.now partners.now }
    ensures { Appends Among (IsConOf index.now.normal.n1 clauses.now partners.now atom others.now)
        (IsOk result) out.old.items out.new.items }
{
    let fewer = candidates(alloc, index, partners, atom, all.len())?;
    match &fewer {
        Some(numbers) => con_by_each(
            alloc,
            index,
            numbers.as_slice(),
            clauses,
            partners,
            atom,
            others,
            out,
        ),
        None => con_by_each(alloc, index, all, clauses, partners, atom, others, out),
    }
}

/// The rule by each of the axioms with these numbers.
fn con_by_each(
    alloc: Global,
    index: &Index,
    numbers: &[usize],
    clauses: &[Clause],
    partners: &[Partner],
    atom: Atom,
    others: &Clause,
    out: &mut Vec<Clause>,
) -> Result<(), Memory>
    requires numbers { AreCandidates index.now.normal.n1 partners.now atom numbers.now }
    requires partners { AreNumbered clauses.now partners.now }
    ensures { Appends Among (IsConOf index.now.normal.n1 clauses.now partners.now atom others.now)
        (IsOk result) out.old.items out.new.items }
{
    let normal = index.normal();
    let axioms = normal.n1.items();
    'numbers: for i in 0..numbers.len() {
        con_by(
            alloc,
            &axioms[numbers[i]],
            clauses,
            partners,
            atom,
            others,
            out,
        )?;
    }
    Ok(())
}

/// The rule by one axiom, in which the premise stands for each place of the atom on the left in turn.
///
/// As `are_at_hand` for the left side, and where that answers no, nothing more. Else the cost is that of `con_from` for each of these places.
fn con_by(
    alloc: Global,
    conj: &Conj,
    clauses: &[Clause],
    partners: &[Partner],
    atom: Atom,
    others: &Clause,
    out: &mut Vec<Clause>,
) -> Result<(), Memory>
    requires partners { AreNumbered clauses.now partners.now }
    ensures { Appends Among (IsConWith clauses.now partners.now conj.now atom others.now)
        (IsOk result) out.old.items out.new.items }
{
    let left = conj.left.items();
    if !are_at_hand(left, atom, partners) {
        return Ok(());
    }
    let right = conj.right.items();
    'places: for j in 0..left.len() {
        let at = left[j];
        if at.0 == atom.0 {
            let taken = without_place(alloc, left, j)?;
            con_from(
                alloc,
                taken.as_slice(),
                right,
                clauses,
                partners,
                others,
                out,
            )?;
        }
    }
    Ok(())
}

/// Appends the union of `base`, of the atoms on the right, and of the rests of partners, one for each of the atoms that are left, for every
/// choice of these partners. As `unions`, and linear in the conclusions.
fn con_from(
    alloc: Global,
    taken: &[Atom],
    right: &[Atom],
    clauses: &[Clause],
    partners: &[Partner],
    base: &Clause,
    out: &mut Vec<Clause>,
) -> Result<(), Memory>
    requires partners { AreNumbered clauses.now partners.now }
    ensures { Appends Among (IsConFrom clauses.now partners.now taken.now base.now right.now)
        (IsOk result) out.old.items out.new.items }
{
    // Most axioms have one atom on the left, for which no list is made.
    if taken.is_empty() {
        return conclude(alloc, base, right, out);
    }
    let bases = unions(alloc, taken, clauses, partners, base)?;
    conclude_each(alloc, bases.as_slice(), right, out)
}

/// The unions of `base` and of the rests of partners, one for each of these atoms, for every choice of these partners.
///
/// It goes from the last atom to the first. For each there is a walk over the partners, and for each partner with that atom over the
/// unions so far.
fn unions(
    alloc: Global,
    atoms: &[Atom],
    clauses: &[Clause],
    partners: &[Partner],
    base: &Clause,
) -> Result<Vec<Clause>, Memory>
    requires partners { AreNumbered clauses.now partners.now }
    ensures { IfOk result (λ found.
        AreThose (IsUnion clauses.now partners.now atoms.now base.now) found.items) }
{
    let mut found = Vec::new(alloc);
    found.push(base.copy()?)?;
    let mut j = atoms.len();
    'atoms: while 0 < j {
        j -= 1;
        let more = joins(alloc, found.as_slice(), atoms[j], clauses, partners)?;
        found = more;
    }
    Ok(found)
}

/// Each of these unions with the rest of each partner that has the atom. A walk over the partners, and for each of these over the unions.
fn joins(
    alloc: Global,
    unions: &[Clause],
    atom: Atom,
    clauses: &[Clause],
    partners: &[Partner],
) -> Result<Vec<Clause>, Memory>
    requires partners { AreNumbered clauses.now partners.now }
    ensures { IfOk result (λ found.
        AreThose (ByOne (IsJoinBy clauses.now atom unions.now) partners.now) found.items) }
{
    let mut found = Vec::new(alloc);
    for partner in partners {
        join_partner(unions, atom, clauses, partner, &mut found)?;
    }
    Ok(found)
}

/// Appends each of these unions with the rest of the partner, if that has the atom. A walk over the unions then, and else constant time.
fn join_partner(
    unions: &[Clause],
    atom: Atom,
    clauses: &[Clause],
    partner: &Partner,
    found: &mut Vec<Clause>,
) -> Result<(), Memory>
    requires { partner.now.number < length clauses.now }
    ensures { Appends Among (IsJoinBy clauses.now atom unions.now partner.now)
        (IsOk result) found.old.items found.new.items }
{
    if partner.atom.0 != atom.0 {
        return Ok(());
    }
    let others = without_atom(&clauses[partner.number], partner.atom)?;
    join_each(unions, &others, found)
}

/// Appends each of these clauses with the elements of `others`. Linear in them all.
fn join_each(clauses: &[Clause], others: &Clause, found: &mut Vec<Clause>) -> Result<(), Memory>
    ensures { Appends Among (ByOne (IsJoin others.now) clauses.now)
        (IsOk result) found.old.items found.new.items }
{
    for clause in clauses {
        join(clause, others, found)?;
    }
    Ok(())
}

/// Appends the clause with the elements of `others`. Linear in both.
fn join(clause: &Clause, others: &Clause, found: &mut Vec<Clause>) -> Result<(), Memory>
    ensures { Appends Among (IsJoin others.now clause.now)
        (IsOk result) found.old.items found.new.items }
{
    found.push(clause.join(others)?)?;
    Ok(())
}

/// Appends each of these clauses with the atoms. Linear in them all, and `n log n` in the atoms for each.
fn conclude_each(
    alloc: Global,
    bases: &[Clause],
    atoms: &[Atom],
    out: &mut Vec<Clause>,
) -> Result<(), Memory>
    ensures { Appends Among (ByOne (IsJoin (map Plain atoms.now)) bases.now)
        (IsOk result) out.old.items out.new.items }
{
    for base in bases {
        conclude(alloc, base, atoms, out)?;
    }
    Ok(())
}

/// Appends the clause with the atoms. Linear in the clause, and `n log n` in the atoms.
fn conclude(
    alloc: Global,
    base: &Clause,
    atoms: &[Atom],
    out: &mut Vec<Clause>,
) -> Result<(), Memory>
    ensures { Appends Among (IsJoin (map Plain atoms.now) base.now)
        (IsOk result) out.old.items out.new.items }
{
    out.push(with_atoms(alloc, base, atoms)?)?;
    Ok(())
}

/// The clause with these atoms too. Linear in the clause, and `n log n` in the atoms.
fn with_atoms(alloc: Global, base: &Clause, atoms: &[Atom]) -> Result<Clause, Memory>
    ensures { IfOk result (λ clause. SameSet clause (base.now ++ map Plain atoms.now)) }
{
    // Most axioms have one atom on the right, for which no list is made.
    if atoms.len() == 1 {
        return base.with(Elem::Plain(atoms[0]));
    }
    let right = atoms_clause(alloc, atoms)?;
    base.join(&right)
}

/// The atoms without the one at place `j`. Linear in the atoms, and takes no memory where there are no others.
fn without_place(alloc: Global, atoms: &[Atom], j: usize) -> Result<Vec<Atom>, Memory>
    requires { j < length atoms.now }
    ensures { IfOk result (λ taken. taken.items ≡ remove atoms.now j) }
{
    let (below, from) = atoms.split_at(j);
    let mut taken = Vec::from_slice(alloc, below)?;
    taken.extend_from_slice(&from[1..])?;
    Ok(taken)
}
