//! The rule Dead.
ghost use Rattle.std.specs.Prelude.{◌≡◌, ◌<◌, ◌↔◌, ℕ, length, true, IsOk, List};
ghost use Rattle.cd_base.specs.Lists.{OneOf};
ghost use Rattle.cd_base.specs.Appends.{Appends};
ghost use Rattle.cd_rules.specs.Among.{Among};
ghost use Rattle.cd_rules.specs.Facts.{IsDead};
ghost use Rattle.cd_rules.specs.Steps.{IsDeadFrom};
ghost use Rattle.cd_rules.specs.Uses.{FromDead};
ghost use Rattle.cd_rules.specs.Walks.{IsDeadWith};

use crate::existential::{are_same, rest_beside};
use crate::facts::DeadFact;
use cd_base::{Key, Memory, Role};
use cd_clause::Clause;
use cd_index::Index;

/// ```text
/// M + some R.K     the empty clause in the context of K
/// -----------------------------------------------------
///                         M
/// ```
///
/// `others` is M, and one of the facts is of role R and key K. Linear in the facts and in `others`.
pub(crate) fn dead_from(
    facts: &[DeadFact],
    role: Role,
    key: &Key,
    others: &Clause,
    out: &mut Vec<Clause>,
) -> Result<(), Memory>
    ensures { Appends Among (IsDeadFrom facts.now role key.now others.now)
        (IsOk result) out.old.items out.new.items }
{
    if is_dead(facts, role, key) {
        out.push(others.copy()?)?;
    }
    Ok(())
}

/// Whether one of the facts is of this role and key. Linear in the facts.
fn is_dead(facts: &[DeadFact], role: Role, key: &Key) -> bool
    ensures { (result ≡ true) ↔ IsDead facts.now role key.now }
{
    for fact in facts {
        if are_same(fact.role, &fact.key, role, key) {
            return true;
        }
    }
    false
}

/// Appends every conclusion that uses this fact, with the live clauses in which its existential is eligible, and no other.
///
/// Linear in the live clauses. `Memory` leaves such conclusions alone behind.
pub fn on_dead(
    index: &Index,
    clauses: &[Clause],
    live: &[usize],
    fact: &DeadFact,
    out: &mut Vec<Clause>,
) -> Result<(), Memory>
    requires live { (k : ℕ) → OneOf k live.now → k < length clauses.now }
    ensures { (key : List ℕ) → Appends Among
        (FromDead index.now.normal key clauses.now live.now fact.now)
        (IsOk result) out.old.items out.new.items }
{
    for number in live {
        dead_with(index, &clauses[*number], fact, out)?;
    }
    Ok(())
}

/// The rule Dead for one fact and one clause, if the fact's existential is eligible in that. Linear in the clause.
fn dead_with(
    index: &Index,
    clause: &Clause,
    fact: &DeadFact,
    out: &mut Vec<Clause>,
) -> Result<(), Memory>
    ensures { Appends Among (IsDeadWith index.now.normal fact.now clause.now)
        (IsOk result) out.old.items out.new.items }
{
    if let Some(others) = rest_beside(index, clause, fact.role, &fact.key)? {
        out.push(others)?;
    }
    Ok(())
}
