//! The elements of clauses.
ghost use Rattle.std.specs.Prelude.{◌≡◌, map, ltb, IfOk};
ghost use Rattle.cd_base.specs.Ascending.{is_covered};
ghost use Rattle.cd_base.specs.Keys.{code};
ghost use Rattle.cd_clause.specs.Covering.{is_as_strong, is_lower};
ghost use Rattle.cd_clause.specs.Dictionary.{is_at_most};
ghost use Rattle.cd_clause.specs.Elements.{same_elem, is_before};

use cd_base::{Atom, Key, Lit, Memory, Role};
use std::alloc::Global;
use std::default::MadeWith;

/// What a clause is made of.
#[derive(Debug, Drop)]
pub enum Elem {
    /// The element is in this atom.
    Plain(Atom),
    /// The element has an edge of this role to what meets this key.
    Exist(Role, Key),
}

/// What stands in a place of a clause that holds no element.
impl MadeWith<Global> for Elem {
    fn made_with(_alloc: Global) -> Elem {
        Elem::Plain(Atom(0))
    }
}

impl Elem {
    /// The same element again. Linear in the literals of its key, and takes no memory up to four.
    pub fn copy(&self) -> Result<Elem, Memory>
        ensures { IfOk result (λ elem. elem ≡ self.now) }
    {
        match self {
            Elem::Plain(atom) => Ok(Elem::Plain(*atom)),
            Elem::Exist(role, key) => Ok(Elem::Exist(*role, key.copy()?)),
        }
    }

    /// Whether it is the same element. Linear in the literals of the keys.
    pub fn is_same(&self, other: &Elem) -> bool
        ensures { result ≡ same_elem self.now other.now }
    {
        match (self, other) {
            (Elem::Plain(left), Elem::Plain(right)) => left == right,
            (Elem::Exist(role, key), Elem::Exist(other_role, other_key)) => {
                role == other_role && key == other_key
            }
            _ => false,
        }
    }

    /// Whether it says at least as much as the other: it is the same atom, or an existential of the same role to a key that has each
    /// literal of the other's. Linear in the literals of the keys.
    pub fn is_as_strong(&self, other: &Elem) -> bool
        ensures { result ≡ is_as_strong self.now other.now }
    {
        match (self, other) {
            (Elem::Plain(left), Elem::Plain(right)) => left == right,
            (Elem::Exist(role, key), Elem::Exist(other_role, other_key)) => {
                role == other_role && is_part(other_key, key)
            }
            _ => false,
        }
    }

    /// Whether it stands before the other in a clause whatever their keys. Constant time.
    pub(crate) fn is_lower(&self, other: &Elem) -> bool
        ensures { result ≡ is_lower self.now other.now }
    {
        match (self, other) {
            (Elem::Plain(left), Elem::Plain(right)) => left < right,
            (Elem::Plain(_), Elem::Exist(_, _)) => true,
            (Elem::Exist(_, _), Elem::Plain(_)) => false,
            (Elem::Exist(role, _), Elem::Exist(other_role, _)) => role < other_role,
        }
    }

    /// Whether it stands before the other in a clause. Linear in the literals of the keys.
    pub(crate) fn is_before(&self, other: &Elem) -> bool
        ensures { result ≡ is_before self.now other.now }
    {
        match (self, other) {
            (Elem::Plain(left), Elem::Plain(right)) => left < right,
            (Elem::Plain(_), Elem::Exist(_, _)) => true,
            (Elem::Exist(_, _), Elem::Plain(_)) => false,
            (Elem::Exist(role, key), Elem::Exist(other_role, other_key)) => {
                if role == other_role {
                    !are_at_most(other_key.lits(), key.lits())
                } else {
                    role < other_role
                }
            }
        }
    }
}

/// Whether each literal of the first key is in the second. Linear in both, and constant time where the first is longer.
fn is_part(small: &Key, large: &Key) -> bool
    ensures { result ≡ is_covered ltb small.now large.now }
{
    if large.lits().len() < small.lits().len() {
        return false;
    }
    small.is_within(large)
}

/// Whether the codes of the first are at most those of the second, in dictionary order, in which what continues a list is below it. Linear
/// in the shorter.
pub(crate) fn are_at_most(left: &[Lit], right: &[Lit]) -> bool
    ensures { result ≡ is_at_most (map code left.now) (map code right.now) }
{
    match left {
        [] => right.is_empty(),
        [first, left_rest @ ..] => match right {
            [] => true,
            [second, right_rest @ ..] => {
                if first.code() < second.code() {
                    true
                } else if first.code() == second.code() {
                    are_at_most(left_rest, right_rest)
                } else {
                    false
                }
            }
        },
    }
}
