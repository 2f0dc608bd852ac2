//! The hand-made normal axioms and their indexes. They tell no ranks, so that atoms are in the order of their numbers.
ghost use Rattle.std.specs.Prelude.{◌≡◌, ◌∷◌, [], true, IsTrue};
ghost use Rattle.std.specs.List.{list_all};
ghost use Rattle.cd_base.specs.Keys.{is_named};
ghost use Rattle.cd_base.specs.Lists.{OneOf};
ghost use Rattle.cd_base.specs.Normal.{has_atoms_below};

use cd_base::{Atom, Conj, Normal, Role, Seq, Triple};
use cd_index::{Closure, Index};
use std::alloc::Global;
use std::process::Abort;

/// The triple of these two atoms and the role 0.
pub fn triple(atom: u32, other: u32) -> Triple
    ensures atom { result.atom ≡ atom }
    ensures role { result.role ≡ 0 }
    ensures other { result.other ≡ other }
{
    Triple {
        atom: Atom(atom),
        role: Role(0),
        other: Atom(other),
    }
}

fn no_atoms(alloc: Global) -> Seq<Atom>
    ensures { result ≡ [] }
{
    Seq::of(Vec::new(alloc))
}

fn one_atom(rt: &impl Abort, alloc: Global, atom: u32) -> Seq<Atom>
    ensures { result ≡ atom ∷ [] }
{
    Seq::of(vec![in alloc; Atom(atom)].expect(rt, "memory"))
}

/// `-> 0`, `1 ->` and `2 -> 3`.
fn three_axioms(rt: &impl Abort, alloc: Global) -> Seq<Conj>
    ensures { IsTrue (list_all (has_atoms_below 6) result) }
{
    let always = Conj {
        left: no_atoms(alloc),
        right: one_atom(rt, alloc, 0),
    };
    let never = Conj {
        left: one_atom(rt, alloc, 1),
        right: no_atoms(alloc),
    };
    let below = Conj {
        left: one_atom(rt, alloc, 2),
        right: one_atom(rt, alloc, 3),
    };
    Seq::of(vec![in alloc; always, never, below].expect(rt, "memory"))
}

/// Six classes, one role, three axioms of atoms, an edge from each 2 to a 4, and whoever has an edge to a 4 is a 5.
fn six_atoms(rt: &impl Abort, alloc: Global) -> Normal
    ensures atoms { result.atoms ≡ 6 }
    ensures roles { result.roles ≡ 1 }
    ensures chains { result.n5 ≡ [] }
    ensures two { is_named result 2 ≡ true }
    ensures four { is_named result 4 ≡ true }
    ensures edge { OneOf (record { atom = 2; role = 0; other = 4 }) result.n2 }
    ensures back { OneOf (record { atom = 4; role = 0; other = 5 }) result.n3 }
{
    let n1 = three_axioms(rt, alloc);
    let named = vec![in alloc; true, true, true, true, true, true].expect(rt, "memory");
    let n2 = vec![in alloc; triple(2, 4)].expect(rt, "memory");
    let n3 = vec![in alloc; triple(4, 5)].expect(rt, "memory");
    Normal {
        atoms: 6,
        named: Seq::of(named),
        ranks: Seq::of(Vec::new(alloc)),
        roles: 1,
        n1,
        n2: Seq::of(n2),
        n3: Seq::of(n3),
        n4: Seq::of(Vec::new(alloc)),
        n5: Seq::of(Vec::new(alloc)),
    }
}

/// The index of `six_atoms`.
pub fn hand_made(rt: &impl Abort, alloc: Global) -> Index
    ensures atoms { result.normal.atoms ≡ 6 }
    ensures roles { result.normal.roles ≡ 1 }
    ensures two { is_named result.normal 2 ≡ true }
    ensures four { is_named result.normal 4 ≡ true }
    ensures edge { OneOf (record { atom = 2; role = 0; other = 4 }) result.normal.n2 }
    ensures back { OneOf (record { atom = 4; role = 0; other = 5 }) result.normal.n3 }
{
    let normal = six_atoms(rt, alloc);
    let closure = Closure::of(alloc, normal.roles, normal.n5.items()).expect(rt, "memory");
    Index::of(alloc, normal, closure).expect(rt, "memory")
}

fn three_and_four(rt: &impl Abort, alloc: Global) -> Seq<Atom>
    ensures { result ≡ 3 ∷ 4 ∷ [] }
{
    Seq::of(vec![in alloc; Atom(3), Atom(4)].expect(rt, "memory"))
}

/// `-> 0`, `2 -> 3`, and `4 -> 3 4`, which says nothing, and by which 4 is the greatest of a clause with others in its own context.
fn idle_axioms(rt: &impl Abort, alloc: Global) -> Seq<Conj>
    ensures within { IsTrue (list_all (has_atoms_below 6) result) }
    ensures idle { OneOf (record { left = 4 ∷ []; right = 3 ∷ 4 ∷ [] }) result }
{
    let always = Conj {
        left: no_atoms(alloc),
        right: one_atom(rt, alloc, 0),
    };
    let below = Conj {
        left: one_atom(rt, alloc, 2),
        right: one_atom(rt, alloc, 3),
    };
    let idle = Conj {
        left: one_atom(rt, alloc, 4),
        right: three_and_four(rt, alloc),
    };
    Seq::of(vec![in alloc; always, below, idle].expect(rt, "memory"))
}

/// As `six_atoms`, with an axiom that says nothing.
fn with_an_idle_axiom(rt: &impl Abort, alloc: Global) -> Normal
    ensures atoms { result.atoms ≡ 6 }
    ensures ranks { result.ranks ≡ [] }
    ensures roles { result.roles ≡ 1 }
    ensures chains { result.n5 ≡ [] }
    ensures two { is_named result 2 ≡ true }
    ensures idle { OneOf (record { left = 4 ∷ []; right = 3 ∷ 4 ∷ [] }) result.n1 }
    ensures edge { OneOf (record { atom = 2; role = 0; other = 4 }) result.n2 }
    ensures back { OneOf (record { atom = 4; role = 0; other = 5 }) result.n3 }
{
    let n1 = idle_axioms(rt, alloc);
    let named = vec![in alloc; true, true, true, true, true, true].expect(rt, "memory");
    let n2 = vec![in alloc; triple(2, 4)].expect(rt, "memory");
    let n3 = vec![in alloc; triple(4, 5)].expect(rt, "memory");
    Normal {
        atoms: 6,
        named: Seq::of(named),
        ranks: Seq::of(Vec::new(alloc)),
        roles: 1,
        n1,
        n2: Seq::of(n2),
        n3: Seq::of(n3),
        n4: Seq::of(Vec::new(alloc)),
        n5: Seq::of(Vec::new(alloc)),
    }
}

/// The index of `with_an_idle_axiom`.
pub fn idle_index(rt: &impl Abort, alloc: Global) -> Index
    ensures ranks { result.normal.ranks ≡ [] }
    ensures two { is_named result.normal 2 ≡ true }
    ensures idle { OneOf (record { left = 4 ∷ []; right = 3 ∷ 4 ∷ [] }) result.normal.n1 }
    ensures edge { OneOf (record { atom = 2; role = 0; other = 4 }) result.normal.n2 }
    ensures back { OneOf (record { atom = 4; role = 0; other = 5 }) result.normal.n3 }
{
    let normal = with_an_idle_axiom(rt, alloc);
    let closure = Closure::of(alloc, normal.roles, normal.n5.items()).expect(rt, "memory");
    Index::of(alloc, normal, closure).expect(rt, "memory")
}

fn two_atoms(rt: &impl Abort, alloc: Global) -> Seq<Atom>
    ensures { result ≡ 0 ∷ 2 ∷ [] }
{
    Seq::of(vec![in alloc; Atom(0), Atom(2)].expect(rt, "memory"))
}

/// `-> 0` and `0 2 -> 3`.
fn two_axioms(rt: &impl Abort, alloc: Global) -> Seq<Conj>
    ensures { IsTrue (list_all (has_atoms_below 6) result) }
{
    let always = Conj {
        left: no_atoms(alloc),
        right: one_atom(rt, alloc, 0),
    };
    let both = Conj {
        left: two_atoms(rt, alloc),
        right: one_atom(rt, alloc, 3),
    };
    Seq::of(vec![in alloc; always, both].expect(rt, "memory"))
}

/// Six classes, one role, these axioms, an edge from each 2 to a 4, and every edge from a 3 goes to a 5.
fn with_a_universal(rt: &impl Abort, alloc: Global) -> Normal
    ensures atoms { result.atoms ≡ 6 }
    ensures roles { result.roles ≡ 1 }
    ensures chains { result.n5 ≡ [] }
    ensures named { is_named result 2 ≡ true }
{
    let n1 = two_axioms(rt, alloc);
    let named = vec![in alloc; true, true, true, true, true, true].expect(rt, "memory");
    let n2 = vec![in alloc; triple(2, 4)].expect(rt, "memory");
    let n4 = vec![in alloc; triple(3, 5)].expect(rt, "memory");
    Normal {
        atoms: 6,
        named: Seq::of(named),
        ranks: Seq::of(Vec::new(alloc)),
        roles: 1,
        n1,
        n2: Seq::of(n2),
        n3: Seq::of(Vec::new(alloc)),
        n4: Seq::of(n4),
        n5: Seq::of(Vec::new(alloc)),
    }
}

/// The index of `with_a_universal`.
pub fn universal_index(rt: &impl Abort, alloc: Global) -> Index
    ensures { is_named result.normal 2 ≡ true }
{
    let normal = with_a_universal(rt, alloc);
    let closure = Closure::of(alloc, normal.roles, normal.n5.items()).expect(rt, "memory");
    Index::of(alloc, normal, closure).expect(rt, "memory")
}

/// `4 -> 3 5`.
fn one_choice(rt: &impl Abort, alloc: Global) -> Seq<Conj>
    ensures { IsTrue (list_all (has_atoms_below 6) result) }
{
    let right = vec![in alloc; Atom(3), Atom(5)].expect(rt, "memory");
    let choice = Conj {
        left: one_atom(rt, alloc, 4),
        right: Seq::of(right),
    };
    Seq::of(vec![in alloc; choice].expect(rt, "memory"))
}

/// Six classes, one role, that axiom, an edge from each 2 to a 4, and whoever has an edge to a 3 or to a 5 is a 1.
fn with_a_choice(rt: &impl Abort, alloc: Global) -> Normal
    ensures atoms { result.atoms ≡ 6 }
    ensures roles { result.roles ≡ 1 }
    ensures chains { result.n5 ≡ [] }
    ensures two { is_named result 2 ≡ true }
    ensures four { is_named result 4 ≡ true }
    ensures edge { OneOf (record { atom = 2; role = 0; other = 4 }) result.n2 }
{
    let n1 = one_choice(rt, alloc);
    let named = vec![in alloc; true, true, true, true, true, true].expect(rt, "memory");
    let n2 = vec![in alloc; triple(2, 4)].expect(rt, "memory");
    let n3 = vec![in alloc; triple(3, 1), triple(5, 1)].expect(rt, "memory");
    Normal {
        atoms: 6,
        named: Seq::of(named),
        ranks: Seq::of(Vec::new(alloc)),
        roles: 1,
        n1,
        n2: Seq::of(n2),
        n3: Seq::of(n3),
        n4: Seq::of(Vec::new(alloc)),
        n5: Seq::of(Vec::new(alloc)),
    }
}

/// The index of `with_a_choice`.
pub fn choice_index(rt: &impl Abort, alloc: Global) -> Index
    ensures two { is_named result.normal 2 ≡ true }
    ensures four { is_named result.normal 4 ≡ true }
    ensures edge { OneOf (record { atom = 2; role = 0; other = 4 }) result.normal.n2 }
{
    let normal = with_a_choice(rt, alloc);
    let closure = Closure::of(alloc, normal.roles, normal.n5.items()).expect(rt, "memory");
    Index::of(alloc, normal, closure).expect(rt, "memory")
}
