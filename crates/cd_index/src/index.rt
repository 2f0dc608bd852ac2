//! Normal axioms by atom.
ghost use Rattle.std.specs.Prelude.{◌≡◌, ◌<◌, ◌↔◌, [], IsTrue, IfOk, slice_index_or};
ghost use Rattle.cd_base.specs.Normal.{Under};
ghost use Rattle.cd_index.specs.Closure.{IsClosureOf};
ghost use Rattle.cd_index.specs.Index.{at_atom, free_numbers, numbers_with, IsFiling};

use crate::by_atom::{file_numbers, free_numbers, numbers_by_atom, triples_by_atom};
use crate::closure::Closure;
use cd_base::{Atom, Memory, Normal, Role, Seq, Triple};
use std::alloc::Global;
use std::marker::Model;

/// Normal axioms, with lists of them for each atom, and the roles above each role.
///
/// Each atom has five lists of its own, so an atom without axioms takes the room of five empty ones.
#[derive(Debug, Drop)]
pub struct Index {
    normal: Normal,
    closure: Closure,
    free: Seq<usize>,
    with_left: Seq<Seq<usize>>,
    filed: Seq<Seq<usize>>,
    gives: Seq<Seq<Triple>>,
    backs: Seq<Seq<Triple>>,
    alls: Seq<Seq<Triple>>,
}

impl Model for Index {
    ghost use Rattle.cd_index.specs.Index.{Indexed, IsIndexOf};

    ghost Value = { Indexed };

    ghost view = { λ index. record { normal = index.normal; filed = index.filed } };

    ghost invariant = { λ index.
        IsIndexOf index.normal index.closure index.free index.with_left index.filed index.gives
        index.backs index.alls };
}

impl Index {
    /// The index of these axioms, by the closure of their role pairs. Linear in the atoms and the axioms.
    pub fn of(alloc: Global, normal: Normal, closure: Closure) -> Result<Index, Memory>
        requires { IsClosureOf closure normal.roles normal.n5 }
        ensures { IfOk result (λ index. index.normal ≡ normal) }
    {
        let axioms = normal.n1.items();
        let free = free_numbers(alloc, axioms)?;
        let with_left = numbers_by_atom(alloc, axioms, normal.atoms)?;
        let filed = file_numbers(alloc, axioms, with_left.as_slice(), normal.atoms)?;
        let gives = triples_by_atom(alloc, normal.n2.items(), normal.atoms)?;
        let backs = triples_by_atom(alloc, normal.n3.items(), normal.atoms)?;
        let alls = triples_by_atom(alloc, normal.n4.items(), normal.atoms)?;
        Ok(Index {
            normal,
            closure,
            free,
            with_left: Seq::of(with_left),
            filed: Seq::of(filed),
            gives: Seq::of(gives),
            backs: Seq::of(backs),
            alls: Seq::of(alls),
        })
    }

    /// The axioms. Constant time.
    pub fn normal(&self) -> &Normal
        ensures { result.now ≡ self.now.normal }
    {
        &self.normal
    }

    /// Whether the lower role is under the higher one. Logarithmic in the roles above it.
    pub fn below(&self, lower: Role, higher: Role) -> bool
        requires lower { lower < self.now.normal.roles }
        requires higher { higher < self.now.normal.roles }
        ensures { IsTrue result ↔ Under self.now.normal.n5 lower higher }
    {
        self.closure.below(lower, higher)
    }

    /// The numbers of the axioms in `n1` with an empty left side, ascending. Constant time.
    pub fn free(&self) -> &[usize]
        ensures { result.now ≡ free_numbers self.now.normal.n1 }
    {
        self.free.items()
    }

    /// The numbers of the axioms in `n1` with this atom in the left side, ascending. Constant time.
    pub fn with_left(&self, atom: Atom) -> &[usize]
        requires { atom < self.now.normal.atoms }
        ensures { result.now ≡ numbers_with self.now.normal.n1 atom }
    {
        self.with_left.items()[atom.0 as usize].items()
    }

    /// The numbers of the axioms in `n1` that are filed under this atom, ascending. Constant time.
    ///
    /// Each axiom with a left side is filed under one of its atoms: the first of those that stand in the fewest left sides.
    pub fn filed(&self, atom: Atom) -> &[usize]
        requires { atom < self.now.normal.atoms }
        ensures list { result.now ≡ slice_index_or self.now.filed atom [] }
        ensures filing { IsFiling self.now.normal.n1 self.now.normal.atoms self.now.filed }
    {
        self.filed.items()[atom.0 as usize].items()
    }

    /// The axioms of `n2` with this `atom`, in their order. Constant time.
    pub fn gives(&self, atom: Atom) -> &[Triple]
        requires { atom < self.now.normal.atoms }
        ensures { result.now ≡ at_atom self.now.normal.n2 atom }
    {
        self.gives.items()[atom.0 as usize].items()
    }

    /// The axioms of `n3` with this `atom`, in their order. Constant time.
    pub fn backs(&self, atom: Atom) -> &[Triple]
        requires { atom < self.now.normal.atoms }
        ensures { result.now ≡ at_atom self.now.normal.n3 atom }
    {
        self.backs.items()[atom.0 as usize].items()
    }

    /// The axioms of `n4` with this `atom`, in their order. Constant time.
    pub fn alls(&self, atom: Atom) -> &[Triple]
        requires { atom < self.now.normal.atoms }
        ensures { result.now ≡ at_atom self.now.normal.n4 atom }
    {
        self.alls.items()[atom.0 as usize].items()
    }
}
