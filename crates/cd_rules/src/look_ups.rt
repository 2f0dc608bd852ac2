//! Look-ups of any atom or role. One that is out of range stands in no axiom.
ghost use Rattle.std.specs.Prelude.{◌≡◌, ◌<◌, ◌↔◌, true};
ghost use Rattle.cd_base.specs.Normal.{Under};
ghost use Rattle.cd_index.specs.Index.{IsFiling};
ghost use Rattle.cd_rules.specs.LookUps.{filed_at, AreAtAtom, AreNumbers, HasAllWith};

use cd_base::{Atom, Role, Triple};
use cd_index::Index;

/// The axioms of `n2` with this atom. Constant time.
pub fn gives<'a>(index: &'a Index, atom: Atom) -> &'a [Triple]
    ensures { AreAtAtom index.now.normal.n2 atom result.now }
{
    let normal = index.normal();
    if atom.0 < normal.atoms {
        index.gives(atom)
    } else {
        &[]
    }
}

/// The axioms of `n3` with this atom. Constant time.
pub fn backs<'a>(index: &'a Index, atom: Atom) -> &'a [Triple]
    ensures { AreAtAtom index.now.normal.n3 atom result.now }
{
    let normal = index.normal();
    if atom.0 < normal.atoms {
        index.backs(atom)
    } else {
        &[]
    }
}

/// The axioms of `n4` with this atom. Constant time.
pub fn alls<'a>(index: &'a Index, atom: Atom) -> &'a [Triple]
    ensures { AreAtAtom index.now.normal.n4 atom result.now }
{
    let normal = index.normal();
    if atom.0 < normal.atoms {
        index.alls(atom)
    } else {
        &[]
    }
}

/// The numbers of the axioms of `n1` with this atom on the left. Constant time.
pub fn with_left<'a>(index: &'a Index, atom: Atom) -> &'a [usize]
    ensures numbers { AreNumbers index.now.normal.n1 result.now }
    ensures every { HasAllWith index.now.normal.n1 atom result.now }
{
    let normal = index.normal();
    if atom.0 < normal.atoms {
        index.with_left(atom)
    } else {
        &[]
    }
}

/// The numbers of the axioms of `n1` that are filed under this atom. Constant time.
pub fn filed<'a>(index: &'a Index, atom: Atom) -> &'a [usize]
    ensures numbers { AreNumbers index.now.normal.n1 result.now }
    ensures list { result.now ≡ filed_at index.now.filed index.now.normal.atoms atom }
    ensures filing { atom < index.now.normal.atoms
        → IsFiling index.now.normal.n1 index.now.normal.atoms index.now.filed }
{
    let normal = index.normal();
    if atom.0 < normal.atoms {
        index.filed(atom)
    } else {
        &[]
    }
}

/// Whether the lower role is under the higher one. Logarithmic in the roles above it.
pub fn is_under(index: &Index, lower: Role, higher: Role) -> bool
    ensures { (result ≡ true) ↔ Under index.now.normal.n5 lower higher }
{
    let normal = index.normal();
    if lower.0 < normal.roles && higher.0 < normal.roles {
        index.below(lower, higher)
    } else {
        // No pair has a role that is out of range.
        lower.0 == higher.0
    }
}
