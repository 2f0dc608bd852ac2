//! Clauses by the atoms that are their greatest elements: the other premises of the rule Con.
ghost use Rattle.std.specs.Prelude.{◌≡◌, ◌<◌, ◌==◌, ◌↔◌, ℕ, length, true, IfOk, IsOk};
ghost use Rattle.std.specs.List.{list_any};
ghost use Rattle.cd_base.specs.Appends.{Appends};
ghost use Rattle.cd_base.specs.Lists.{OneOf};
ghost use Rattle.cd_rules.specs.Partners.{ArePartners, IsAtHand, IsPartner};

use crate::atoms::greatest_atom;
use cd_base::{Atom, Memory, Normal};
use cd_clause::Clause;
use std::alloc::Global;

/// A clause whose greatest element is an atom.
#[derive(Clone, Copy, Debug, PartialEq, Eq)]
pub struct Partner {
    pub atom: Atom,
    /// The number of the clause.
    pub number: usize,
}

/// Those of the clauses with these numbers whose greatest element is an atom. The cost is that of `greatest_atom` for each of these clauses.
pub(crate) fn partners_among(
    alloc: Global,
    normal: &Normal,
    clauses: &[Clause],
    choices: &[usize],
) -> Result<Vec<Partner>, Memory>
    requires choices { (k : ℕ) → OneOf k choices.now → k < length clauses.now }
    ensures { IfOk result (λ partners.
        ArePartners normal.now clauses.now choices.now partners.items) }
{
    let mut partners = Vec::new(alloc);
    'choices: for i in 0..choices.len() {
        push_partner(normal, clauses, choices[i], &mut partners)?;
    }
    Ok(partners)
}

/// Appends the clause of this number, if its greatest element is an atom. As `greatest_atom`.
fn push_partner(
    normal: &Normal,
    clauses: &[Clause],
    number: usize,
    partners: &mut Vec<Partner>,
) -> Result<(), Memory>
    requires { number < length clauses.now }
    ensures { Appends OneOf (IsPartner normal.now clauses.now number)
        (IsOk result) partners.old.items partners.new.items }
{
    match greatest_atom(&clauses[number], normal) {
        None => Ok(()),
        Some(atom) => {
            partners.push(Partner { atom, number })?;
            Ok(())
        }
    }
}

/// Whether each of these atoms is `atom` or that of a partner.
///
/// A walk over the partners for each atom that is looked at. It looks from both ends inwards: mostly the clauses of a long left side come
/// in its order or the other way round, and then an atom that is still without a partner stands at one of the ends.
pub(crate) fn are_at_hand(atoms: &[Atom], atom: Atom, partners: &[Partner]) -> bool
    ensures { (result ≡ true) ↔ ((b : ℕ) → OneOf b atoms.now → IsAtHand partners.now atom b) }
{
    let mut low = 0;
    let mut high = atoms.len();
    'places: while low < high {
        high -= 1;
        if !is_at_hand(atoms[low], atom, partners) {
            return false;
        }
        if !is_at_hand(atoms[high], atom, partners) {
            return false;
        }
        low += 1;
    }
    true
}

/// Whether the atom `at` is `atom` or that of a partner. A walk over the partners.
fn is_at_hand(at: Atom, atom: Atom, partners: &[Partner]) -> bool
    ensures { (result ≡ true) ↔ IsAtHand partners.now atom at }
{
    at.0 == atom.0 || has_partner(at, partners)
}

/// Whether one of the partners has this atom. A walk over them.
fn has_partner(atom: Atom, partners: &[Partner]) -> bool
    ensures { result ≡ list_any (λ p. p.atom == atom) partners.now }
{
    partners.iter().any(|partner| partner.atom.0 == atom.0)
}
