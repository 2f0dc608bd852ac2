//! A walk over the pairs of roles, from one role.
ghost use Rattle.std.specs.Prelude.{◌≡◌, ◌<◌, ℕ, ◌↔◌, IsTrue, length, nat_eq, All, Contains, IfOk, OnOk};
ghost use Rattle.std.specs.List.{list_all};
ghost use Rattle.std.specs.List.Sorted.{IsNonDecreasing, IsPermutation, IsSorted};
ghost use Rattle.std.specs.Ordering.{nat_cmp};
ghost use Rattle.indexmap.specs.IndexSet.{insert_all};
ghost use Rattle.cd_base.specs.Normal.{has_roles_below};
ghost use Rattle.cd_index.specs.Lists.{AreLists};
ghost use Rattle.cd_index.specs.Walk.{told_above, AreWithin, Leads};

use crate::lists::empty_lists;
use cd_base::{Memory, RolePair, Seq};
use indexmap::IndexSet;
use std::alloc::Global;

/// For each role the higher roles of its pairs. Linear in the roles and the pairs.
pub(crate) fn told_above(
    alloc: Global,
    roles: u32,
    pairs: &[RolePair],
) -> Result<Vec<Seq<u32>>, Memory>
    requires { IsTrue (list_all (has_roles_below roles) pairs.now) }
    ensures { IfOk result (λ told. AreLists roles told.items (told_above pairs.now)) }
{
    let mut told = empty_lists(alloc, roles as usize)?;
    for pair in pairs {
        told[pair.lower.0 as usize].push(pair.higher.0)?;
    }
    Ok(told)
}

/// The roles that one pair or more lead to from this one, ascending.
///
/// Constant time where the role has no pair. Else linear in the pairs of those roles, and `n log n` in those roles.
pub(crate) fn roles_above(alloc: Global, told: &[Seq<u32>], role: u32) -> Result<Seq<u32>, Memory>
    requires role { role < length told.now }
    requires within { AreWithin told.now }
    ensures sorted { IfOk result IsNonDecreasing }
    ensures exact { IfOk result (λ above. (s : ℕ) → Contains above s ↔ Leads told.now role s) }
{
    if told[role as usize].items().is_empty() {
        return Ok(Seq::of(Vec::new(alloc)));
    }
    let reached = reached_from(alloc, told, role)?;
    ascending(alloc, reached.as_slice())
}

/// The roles, ascending. `n log n` in them.
fn ascending(alloc: Global, roles: &[u32]) -> Result<Seq<u32>, Memory>
    ensures sorted { IfOk result (IsSorted nat_cmp) }
    ensures same { IfOk result (IsPermutation roles.now) }
{
    let mut sorted = roles.to_vec(alloc)?;
    sorted.sort()?;
    Ok(Seq::of(sorted))
}

/// The roles that one pair or more lead to from this one, in the order of a breadth-first walk. Linear in the pairs of those roles.
fn reached_from(alloc: Global, told: &[Seq<u32>], role: u32) -> Result<IndexSet<u32>, Memory>
    requires role { role < length told.now }
    requires within { AreWithin told.now }
    ensures { IfOk result (λ reached. (s : ℕ) → Contains reached.keys s ↔ Leads told.now role s) }
{
    let mut reached = IndexSet::new(alloc);
    insert_all(&mut reached, told[role as usize].items())?;
    let mut next = 0;
    while next < reached.len() {
        let at = reached[next] as usize;
        insert_all(&mut reached, told[at].items())?;
        next += 1;
    }
    Ok(reached)
}

/// Inserts the roles in turn. Linear in them.
fn insert_all(reached: &mut IndexSet<u32>, roles: &[u32]) -> Result<(), Memory>
    ensures { OnOk result (reached.new.keys ≡ insert_all nat_eq reached.old.keys roles.now) }
{
    reached.extend(roles)?;
    Ok(())
}
