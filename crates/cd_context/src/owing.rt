//! What a context owes to others.
ghost use Rattle.std.specs.Prelude.{◌∷◌, ◌++◌, ◌<◌, ℕ, [], length, nat_lt, filter, IsOk, List, slice_index_or};
ghost use Rattle.cd_base.specs.Lists.{OneOf};
ghost use Rattle.cd_store.specs.Store.{IsAscending};
ghost use Rattle.cd_context.specs.Contract.{Sends};
ghost use Rattle.cd_base.specs.Appends.{Appends};
ghost use Rattle.cd_context.specs.Owes.{Owes};
ghost use Rattle.cd_context.specs.OwedParts.{AreFrom, IsOwedBy, IsToldBy};
ghost use Rattle.cd_context.specs.declared.facts.LinkFact.{LinkFact};
ghost use Rattle.cd_rules.specs.declared.facts.BackFact.{BackFact};
ghost use Rattle.cd_rules.specs.declared.facts.DeadFact.{DeadFact};
ghost use Rattle.cd_rules.specs.declared.facts.SureFact.{SureFact};

use crate::facts::{LinkFact, Note};
use crate::notes::{note_links, tell};
use cd_base::{Key, Memory};
use cd_clause::Clause;
use cd_index::Index;
use cd_store::Store;
use std::alloc::Global;

/// Appends what the live clauses with numbers from `stored` on owe: links to the keys of their existentials, and, to each context that
/// has an existential to this one, backs for their atoms, sures for those that are alone, and deads where one of them is empty.
///
/// Linear in these clauses, each time in the links where a clause has an atom of use.
pub(crate) fn owe_since(
    alloc: Global,
    index: &Index,
    key: &Key,
    store: &Store,
    links: &[LinkFact],
    stored: usize,
    out: &mut Vec<Note>,
) -> Result<(), Memory>
    ensures { (backs : List BackFact) (sures : List SureFact) (deads : List DeadFact)
        → Sends index.now.normal (IsOk result)
        (Owes index.now.normal (record {
          key = key.now;
          clauses = store.now.clauses;
          live = filter (λ k. nat_lt k stored) store.now.live;
          links = links.now;
          backs = backs;
          sures = sures;
          deads = deads;
        }))
        (record {
          key = key.now;
          clauses = store.now.clauses;
          live = store.now.live;
          links = links.now;
          backs = backs;
          sures = sures;
          deads = deads;
        })
        out.old.items out.new.items }
{
    owe_all(
        index,
        key,
        store.clauses(),
        since(store.live(), stored),
        links,
        out,
    )
}

/// The numbers that are at least `stored`, of those that ascend. Logarithmic in them.
fn since(numbers: &[usize], stored: usize) -> &[usize]
    requires { IsAscending numbers.now }
    ensures { AreFrom stored numbers.now result.now }
{
    let from = numbers.partition_point(|number| *number < stored);
    &numbers[from..]
}

/// Appends what the clauses of these numbers owe. Linear in the clauses, each time in the links where a clause has an atom of use.
fn owe_all(
    index: &Index,
    key: &Key,
    clauses: &[Clause],
    numbers: &[usize],
    links: &[LinkFact],
    out: &mut Vec<Note>,
) -> Result<(), Memory>
    requires { (k : ℕ) → OneOf k numbers.now → k < length clauses.now }
    ensures { Appends OneOf (λ note. (k : ℕ) × OneOf k numbers.now
        × IsOwedBy index.now.normal key.now links.now (slice_index_or clauses.now k []) note)
        (IsOk result) out.old.items out.new.items }
{
    let mut rest = numbers;
    'numbers: while let [number, others @ ..] = rest {
        owe_one(index, key, &clauses[*number], links, out)?;
        rest = others;
    }
    Ok(())
}

/// Appends what one clause owes. Linear in the clause, each time once more, and in the links where it has an atom of use.
fn owe_one(
    index: &Index,
    key: &Key,
    clause: &Clause,
    links: &[LinkFact],
    out: &mut Vec<Note>,
) -> Result<(), Memory>
    ensures { Appends OneOf (IsOwedBy index.now.normal key.now links.now clause.now)
        (IsOk result) out.old.items out.new.items }
{
    note_links(index, key, clause, out)?;
    tell(index, key, clause, links, out)
}

/// Appends what the context owes to one that is found to have an existential to it: backs for the atoms of its live clauses,
/// sures for those that are alone in one, and a dead where one of them is empty. Linear in the live clauses.
pub(crate) fn owe_link(
    alloc: Global,
    index: &Index,
    key: &Key,
    store: &Store,
    link: &LinkFact,
    out: &mut Vec<Note>,
) -> Result<(), Memory>
    ensures { (earlier : List LinkFact) (backs : List BackFact) (sures : List SureFact)
        (deads : List DeadFact) → Sends index.now.normal (IsOk result)
        (Owes index.now.normal (record {
          key = key.now;
          clauses = store.now.clauses;
          live = store.now.live;
          links = earlier;
          backs = backs;
          sures = sures;
          deads = deads;
        }))
        (record {
          key = key.now;
          clauses = store.now.clauses;
          live = store.now.live;
          links = earlier ++ link.now ∷ [];
          backs = backs;
          sures = sures;
          deads = deads;
        })
        out.old.items out.new.items }
{
    tell_all(
        index,
        key,
        store.clauses(),
        store.live(),
        std::slice::from_ref(link),
        out,
    )
}

/// Appends what the clauses of these numbers tell these contexts that have an existential to this one. Linear in the clauses, each time
/// in the links where a clause has an atom of use.
fn tell_all(
    index: &Index,
    key: &Key,
    clauses: &[Clause],
    numbers: &[usize],
    links: &[LinkFact],
    out: &mut Vec<Note>,
) -> Result<(), Memory>
    requires { (k : ℕ) → OneOf k numbers.now → k < length clauses.now }
    ensures { Appends OneOf (λ note. (k : ℕ) × OneOf k numbers.now
        × IsToldBy index.now.normal key.now links.now (slice_index_or clauses.now k []) note)
        (IsOk result) out.old.items out.new.items }
{
    let mut rest = numbers;
    'numbers: while let [number, others @ ..] = rest {
        tell(index, key, &clauses[*number], links, out)?;
        rest = others;
    }
    Ok(())
}
