//! One row each of the structural transformation's table: a fresh atom for an expression whose parts have atoms, and the axioms that say so.
ghost use Rattle.std.specs.Prelude.{◌≡◌, ◌∷◌, [], ◌+◌, ◌^◌, ◌≤◌, ◌<◌, length, IfOk};
ghost use Rattle.cd_meaning.specs.NormalAxioms.{implies, triple, n2, n3, n4};
ghost use Rattle.cd_normal.specs.Made.{rows, Adds, Closes, ClosesTwo, rest_rows, minus_rows, some_rows, list_rows, link_rows};

use crate::maker::Maker;
use cd_base::{Atom, Conj, Memory, Role, Seq, Triple};
use std::alloc::Global;

impl Maker {
    /// What is in every atom on the left is in some atom on the right. Constant time, but for growing the list; so are the others below
    /// that add one axiom.
    pub(crate) fn add_implication(
        &mut self,
        left: Vec<Atom>,
        right: Vec<Atom>,
    ) -> Result<(), Memory>
        ensures next { self.new.next ≡ self.old.next }
        ensures few { rows self.new ≤ rows self.old + 1 }
        ensures adds { IfOk result (λ done.
            Adds self.old self.new (implies left.items right.items ∷ [])) }
    {
        self.n1.push(Conj {
            left: Seq::of(left),
            right: Seq::of(right),
        })?;
        Ok(())
    }

    /// Every element of the atom has an edge of the role to an element of the other.
    fn add_existential(&mut self, atom: u32, role: u32, other: u32) -> Result<(), Memory>
        ensures next { self.new.next ≡ self.old.next }
        ensures few { rows self.new ≤ rows self.old + 1 }
        ensures adds { IfOk result (λ done.
            Adds self.old self.new (n2 (triple atom role other) ∷ [])) }
    {
        self.n2.push(Triple {
            atom: Atom(atom),
            role: Role(role),
            other: Atom(other),
        })?;
        Ok(())
    }

    /// Every element with an edge of the role to an element of the atom is in the other.
    pub(crate) fn add_propagation(&mut self, atom: u32, role: u32, other: u32) -> Result<(), Memory>
        ensures next { self.new.next ≡ self.old.next }
        ensures few { rows self.new ≤ rows self.old + 1 }
        ensures adds { IfOk result (λ done.
            Adds self.old self.new (n3 (triple atom role other) ∷ [])) }
    {
        self.n3.push(Triple {
            atom: Atom(atom),
            role: Role(role),
            other: Atom(other),
        })?;
        Ok(())
    }
}

impl Maker {
    /// A fresh atom.
    pub(crate) fn fresh(&mut self) -> u32
        requires room { self.old.next + 1 < 2 ^ 32 }
        ensures number { result ≡ self.old.next }
        ensures next { self.new ≡ record self.old { next = self.old.next + 1 } }
    {
        let x = self.next;
        self.next = x + 1;
        x
    }

    /// A fresh atom for the complement of a class: apart from it (pos), or all that is not in it (neg).
    pub(crate) fn minus_use(&mut self, alloc: Global, class: u32, sign: bool) -> Result<u32, Memory>
        requires room { self.old.next + 1 < 2 ^ 32 }
        ensures closes { IfOk result (λ x. Closes self.old self.new x (minus_rows sign x class)) }
        ensures few { rows self.new ≤ rows self.old + 1 }
    {
        let x = self.fresh();
        let both = vec![in alloc; Atom(x), Atom(class)]?;
        if sign {
            self.add_implication(both, Vec::new(alloc))?;
        } else {
            self.add_implication(Vec::new(alloc), both)?;
        }
        Ok(x)
    }

    /// A fresh atom for an existential over an atom: below it (pos), or above it (neg).
    pub(crate) fn some_use(&mut self, role: u32, part: u32, sign: bool) -> Result<u32, Memory>
        requires room { self.old.next + 1 < 2 ^ 32 }
        ensures closes { IfOk result
            (λ x. Closes self.old self.new x (some_rows sign x role part)) }
        ensures few { rows self.new ≤ rows self.old + 1 }
    {
        let x = self.fresh();
        if sign {
            self.add_existential(x, role, part)?;
        } else {
            self.add_propagation(part, role, x)?;
        }
        Ok(x)
    }
}

impl Maker {
    /// From x to each, or from each to x. Linear in their number.
    pub(crate) fn imply_each(
        &mut self,
        alloc: Global,
        x: u32,
        ys: &[Atom],
        outward: bool,
    ) -> Result<(), Memory>
        ensures next { self.new.next ≡ self.old.next }
        ensures few { rows self.new ≤ rows self.old + length ys.now }
        ensures adds { IfOk result (λ done. Adds self.old self.new (link_rows outward x ys.now)) }
    {
        for y in ys {
            self.link(alloc, x, *y, outward)?;
        }
        Ok(())
    }

    /// From x to y, or from y to x. Constant time, but for growing the list.
    pub(crate) fn link(
        &mut self,
        alloc: Global,
        x: u32,
        y: Atom,
        outward: bool,
    ) -> Result<(), Memory>
        ensures next { self.new.next ≡ self.old.next }
        ensures few { rows self.new ≤ rows self.old + 1 }
        ensures adds { IfOk result (λ done. Adds self.old self.new (link_rows outward x (y ∷ []))) }
    {
        let here = vec![in alloc; Atom(x)]?;
        let there = vec![in alloc; y]?;
        if outward {
            self.add_implication(here, there)
        } else {
            self.add_implication(there, here)
        }
    }

    /// A fresh atom for an intersection or a union of atoms: below it (pos), or above it (neg). Linear in the atoms.
    pub(crate) fn list_use(
        &mut self,
        alloc: Global,
        ys: Vec<Atom>,
        meet: bool,
        sign: bool,
    ) -> Result<u32, Memory>
        requires room { self.old.next + 1 < 2 ^ 32 }
        ensures closes { IfOk result
            (λ x. Closes self.old self.new x (list_rows meet sign x ys.items)) }
        ensures few { rows self.new ≤ rows self.old + (1 + length ys.items) }
    {
        let x = self.fresh();
        if meet == sign {
            self.imply_each(alloc, x, &ys, sign)?;
        } else {
            let here = vec![in alloc; Atom(x)]?;
            if sign {
                self.add_implication(here, ys)?;
            } else {
                self.add_implication(ys, here)?;
            }
        }
        Ok(x)
    }
}

impl Maker {
    /// Every edge of the role from an element of the atom goes to an element of the other.
    pub(crate) fn add_universal(&mut self, atom: u32, role: u32, other: u32) -> Result<(), Memory>
        ensures next { self.new.next ≡ self.old.next }
        ensures few { rows self.new ≤ rows self.old + 1 }
        ensures adds { IfOk result (λ done.
            Adds self.old self.new (n4 (triple atom role other) ∷ [])) }
    {
        self.n4.push(Triple {
            atom: Atom(atom),
            role: Role(role),
            other: Atom(other),
        })?;
        Ok(())
    }

    /// A fresh atom below a universal over an atom.
    pub(crate) fn all_use(&mut self, role: u32, part: u32) -> Result<u32, Memory>
        requires room { self.old.next + 1 < 2 ^ 32 }
        ensures closes { IfOk result
            (λ x. Closes self.old self.new x (n4 (triple x role part) ∷ [])) }
        ensures few { rows self.new ≤ rows self.old + 1 }
    {
        let x = self.fresh();
        self.add_universal(x, role, part)?;
        Ok(x)
    }

    /// A fresh atom above a universal: what is not in it is in a second fresh atom, which has an edge to the atom of the complement.
    pub(crate) fn rest_use(&mut self, alloc: Global, role: u32, part: u32) -> Result<u32, Memory>
        requires room { self.old.next + 2 < 2 ^ 32 }
        ensures closes { IfOk result (λ x. ClosesTwo self.old self.new x (rest_rows x role part)) }
        ensures few { rows self.new ≤ rows self.old + 2 }
    {
        let x = self.fresh();
        let y = self.fresh();
        let both = vec![in alloc; Atom(x), Atom(y)]?;
        self.add_existential(y, role, part)?;
        self.add_implication(Vec::new(alloc), both)?;
        Ok(x)
    }
}
