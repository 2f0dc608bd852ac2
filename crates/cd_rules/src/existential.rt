//! One existential in a clause.
ghost use Rattle.std.specs.Prelude.{◌≡◌, ◌↔◌, true, IfOk, MatchOption};
ghost use Rattle.cd_base.specs.Lists.{SameSet};
ghost use Rattle.cd_clause.specs.Elements.{Eligible, rest};
ghost use Rattle.cd_clause.specs.declared.elem.Elem.TheVariants.{Exist};

use cd_base::{Key, Memory, Role};
use cd_clause::{Clause, Elem, greatest};
use cd_index::Index;

/// The rest of the clause beside this existential, if that is its greatest element. Linear in the clause and the literals of its keys.
pub(crate) fn rest_beside(
    index: &Index,
    clause: &Clause,
    role: Role,
    key: &Key,
) -> Result<Option<Clause>, Memory>
    ensures { IfOk result (λ found.
        MatchOption found (Eligible index.now.normal (Exist role key.now) clause.now → ⊥)
        (λ others. Eligible index.now.normal (Exist role key.now) clause.now
        × SameSet others (rest (Exist role key.now) clause.now))) }
{
    let Some(i) = greatest(clause, index.normal()) else {
        return Ok(None);
    };
    if !is_exist(&clause.elems()[i], role, key) {
        return Ok(None);
    }
    Ok(Some(clause.without(i)?))
}

/// Whether the element is this existential. Linear in the literals of the keys.
fn is_exist(elem: &Elem, role: Role, key: &Key) -> bool
    ensures { (result ≡ true) ↔ (elem.now ≡ Exist role key.now) }
{
    match elem {
        Elem::Plain(_) => false,
        Elem::Exist(other_role, other_key) => are_same(*other_role, other_key, role, key),
    }
}

/// Whether the roles are the same, and the keys. Linear in the literals of the keys.
pub(crate) fn are_same(role: Role, key: &Key, other_role: Role, other_key: &Key) -> bool
    ensures { (result ≡ true) ↔ ((role ≡ other_role) × (key.now ≡ other_key.now)) }
{
    role.0 == other_role.0 && *key == *other_key
}
