//! The notes that one clause makes by its greatest element: a link for an existential, and of an atom that is of use there, for each context
//! that has an existential to this one, a sure where it is alone in the clause, and else a back; or a dead where the clause is empty.
ghost use Rattle.std.specs.Prelude.{◌≡◌, ◌↔◌, true, IsOk};
ghost use Rattle.cd_base.specs.Lists.{OneOf};
ghost use Rattle.cd_rules.specs.LookUps.{AreAtAtom};
ghost use Rattle.cd_base.specs.Appends.{Appends};
ghost use Rattle.cd_context.specs.OwedParts.{IsUnderOne, IsLinkNote, IsDeadNote, IsUsefulNote, IsAtomNote, IsLinkOf, IsToldBy, atom_fact};
ghost use Rattle.cd_context.specs.declared.facts.LinkFact.{LinkFact};

use crate::facts::{Fact, LinkFact, Note};
use crate::live::is_single;
use cd_base::{Atom, Key, Memory, Role, Triple};
use cd_clause::{Clause, Elem, greatest};
use cd_index::Index;
use cd_rules::look_ups::{backs, is_under};

/// Appends a link for the greatest element of the clause, if that is an existential. Linear in the clause.
pub(crate) fn note_links(
    index: &Index,
    key: &Key,
    clause: &Clause,
    out: &mut Vec<Note>,
) -> Result<(), Memory>
    ensures { Appends OneOf (IsLinkOf index.now.normal key.now clause.now)
        (IsOk result) out.old.items out.new.items }
{
    let Some(i) = greatest(clause, index.normal()) else {
        return Ok(());
    };
    match &clause.elems()[i] {
        Elem::Plain(_) => Ok(()),
        Elem::Exist(role, to) => note_link(key, *role, to, out),
    }
}

/// Appends the link to the context of the key `to`. Linear in both keys.
fn note_link(key: &Key, role: Role, to: &Key, out: &mut Vec<Note>) -> Result<(), Memory>
    ensures { Appends OneOf (IsLinkNote key.now role to.now)
        (IsOk result) out.old.items out.new.items }
{
    out.push(Note {
        key: to.copy()?,
        fact: Fact::Link(key.copy()?, role),
    })?;
    Ok(())
}

/// Appends what the clause tells these contexts that have an existential to this one: of its greatest element, if that is an atom, backs, or
/// sures where it is alone; and deads of the empty clause. Linear in the clause, and in the links where the atom is of use by some axiom.
pub(crate) fn tell(
    index: &Index,
    key: &Key,
    clause: &Clause,
    links: &[LinkFact],
    out: &mut Vec<Note>,
) -> Result<(), Memory>
    ensures { Appends OneOf (IsToldBy index.now.normal key.now links.now clause.now)
        (IsOk result) out.old.items out.new.items }
{
    let Some(i) = greatest(clause, index.normal()) else {
        return tell_deads(key, links, out);
    };
    match &clause.elems()[i] {
        Elem::Exist(_, _) => Ok(()),
        Elem::Plain(atom) => {
            let alone = is_single(clause, *atom);
            tell_atom(index, key, *atom, alone, links, out)
        }
    }
}

/// Appends the fact of the atom for each link where it is of use. Constant time for an atom that no axiom makes of use, and else linear
/// in the links and these axioms.
fn tell_atom(
    index: &Index,
    key: &Key,
    atom: Atom,
    alone: bool,
    links: &[LinkFact],
    out: &mut Vec<Note>,
) -> Result<(), Memory>
    ensures { Appends OneOf (λ note. (f : LinkFact) × OneOf f links.now
        × IsUsefulNote index.now.normal key.now atom alone f note)
        (IsOk result) out.old.items out.new.items }
{
    let axioms = backs(index, atom);
    if axioms.is_empty() {
        return Ok(());
    }
    let mut rest = links;
    'links: while let [link, others @ ..] = rest {
        tell_one(index, key, atom, alone, axioms, link, out)?;
        rest = others;
    }
    Ok(())
}

/// Appends the fact of the atom, which has these axioms, where it is of use for the link. Linear in the axioms.
fn tell_one(
    index: &Index,
    key: &Key,
    atom: Atom,
    alone: bool,
    axioms: &[Triple],
    link: &LinkFact,
    out: &mut Vec<Note>,
) -> Result<(), Memory>
    requires { AreAtAtom index.now.normal.n3 atom axioms.now }
    ensures { Appends OneOf (IsUsefulNote index.now.normal key.now atom alone link.now)
        (IsOk result) out.old.items out.new.items }
{
    if is_under_one(index, axioms, link.role) {
        note_atom(key, atom, alone, link, out)
    } else {
        Ok(())
    }
}

/// Whether the role is under that of one of these axioms. Linear in them.
fn is_under_one(index: &Index, axioms: &[Triple], role: Role) -> bool
    ensures { (result ≡ true) ↔ IsUnderOne index.now.normal axioms.now role }
{
    let mut rest = axioms;
    'axioms: while let [axiom, others @ ..] = rest {
        if is_under(index, role, axiom.role) {
            return true;
        }
        rest = others;
    }
    false
}

/// Appends the fact of the atom for the link. Linear in both keys.
fn note_atom(
    key: &Key,
    atom: Atom,
    alone: bool,
    link: &LinkFact,
    out: &mut Vec<Note>,
) -> Result<(), Memory>
    ensures { Appends OneOf (IsAtomNote key.now atom alone link.now)
        (IsOk result) out.old.items out.new.items }
{
    out.push(Note {
        key: link.key.copy()?,
        fact: atom_fact(alone, link.role, key.copy()?, atom),
    })?;
    Ok(())
}

/// What is told of an atom: a sure where it is alone in its clause, and else a back. Constant time.
fn atom_fact(alone: bool, role: Role, key: Key, atom: Atom) -> Fact
    ensures { result ≡ atom_fact alone role key atom }
{
    if alone {
        Fact::Sure(role, key, atom)
    } else {
        Fact::Back(role, key, atom)
    }
}

/// Appends a dead for each link. Linear in the links.
fn tell_deads(key: &Key, links: &[LinkFact], out: &mut Vec<Note>) -> Result<(), Memory>
    ensures { Appends OneOf (λ note. (f : LinkFact) × OneOf f links.now
        × IsDeadNote key.now f note) (IsOk result) out.old.items out.new.items }
{
    let mut rest = links;
    'links: while let [link, others @ ..] = rest {
        note_dead(key, link, out)?;
        rest = others;
    }
    Ok(())
}

/// Appends the dead for the link. Linear in both keys.
fn note_dead(key: &Key, link: &LinkFact, out: &mut Vec<Note>) -> Result<(), Memory>
    ensures { Appends OneOf (IsDeadNote key.now link.now)
        (IsOk result) out.old.items out.new.items }
{
    out.push(Note {
        key: link.key.copy()?,
        fact: Fact::Dead(link.role, key.copy()?),
    })?;
    Ok(())
}
