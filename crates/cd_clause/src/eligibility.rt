//! Which element of a clause the rules work on.
ghost use Rattle.std.specs.Prelude.{◌≡◌, [], MatchOption};
ghost use Rattle.cd_clause.specs.Dictionary.{is_at_most};
ghost use Rattle.cd_clause.specs.Elements.{rank, IsGreatestAt};
ghost use Rattle.cd_clause.specs.declared.elem.Elem.TheVariants.{Plain};

use crate::clause::Clause;
use crate::elem::{Elem, are_at_most};
use cd_base::{Atom, Normal};

/// The place of the eligible element of the clause: its greatest in the order of the calculus, in which atoms are lowest, by the ranks that
/// are told of them and then by number, and existentials are above atoms, by role and then by key. The empty clause has none.
///
/// One walk over the clause, linear in it and in the literals of its keys.
pub fn greatest(clause: &Clause, normal: &Normal) -> Option<usize>
    ensures { MatchOption result (clause.now ≡ []) (IsGreatestAt normal.now clause.now) }
{
    let elems = clause.elems();
    if elems.is_empty() {
        return None;
    }
    let mut best = 0;
    'places: for i in 0..elems.len() {
        if is_at_most(&elems[best], &elems[i], normal) {
            best = i;
        }
    }
    Some(best)
}

/// Whether the first element is at most the second in the order of the calculus. Linear in the literals of the keys.
fn is_at_most(left: &Elem, right: &Elem, normal: &Normal) -> bool
    ensures { result ≡ is_at_most (rank normal.now left.now) (rank normal.now right.now) }
{
    match (left, right) {
        (Elem::Plain(a), Elem::Plain(b)) => is_atom_at_most(*a, *b, normal),
        (Elem::Plain(_), Elem::Exist(_, _)) => true,
        (Elem::Exist(_, _), Elem::Plain(_)) => false,
        (Elem::Exist(r, k), Elem::Exist(s, l)) => {
            r < s || (r == s && are_at_most(k.lits(), l.lits()))
        }
    }
}

/// The same of two atoms. Constant time.
fn is_atom_at_most(left: Atom, right: Atom, normal: &Normal) -> bool
    ensures { result ≡ is_at_most (rank normal.now (Plain left)) (rank normal.now (Plain right)) }
{
    let low = normal.rank(left);
    let high = normal.rank(right);
    low < high || (low == high && left <= right)
}
