//! Closing a context under its rules.
ghost use Rattle.std.specs.Prelude.{ℕ, [], List, IfOk, OnOk};
ghost use Rattle.cd_base.specs.Lists.{OneOf};
ghost use Rattle.cd_clause.specs.declared.elem.Elem.{Elem};
ghost use Rattle.cd_rules.specs.Facts.{ConcludesFrom};
ghost use Rattle.cd_context.specs.Beside.{HasConcluded};
ghost use Rattle.cd_context.specs.FactLists.{told_in};
ghost use Rattle.cd_context.specs.Justified.{IsInTurn};
ghost use Rattle.cd_context.specs.TakeUp.{ClosedUpTo, Continues, IsWorking, TakesUpMore, Stays};
ghost use Rattle.cd_context.specs.Waits.{numbers};

use crate::beside::beside;
use crate::fact_lists::FactLists;
use crate::waiting::Waiting;
use cd_base::{Key, Memory};
use cd_clause::Clause;
use cd_index::Index;
use cd_rules::on_clause;
use cd_store::{Added, Store};
use std::alloc::Global;

/// Adds the conclusions to a store that is closed but for them, and closes it again.
///
/// The cost is that of `close`, and of adding each conclusion. After `Memory` the store has all that it had, each of its clauses is
/// concluded from those before it.
pub(crate) fn close_with(
    alloc: Global,
    index: &Index,
    key: &Key,
    facts: &FactLists,
    store: &mut Store,
    conclusions: Vec<Clause>,
) -> Result<(), Memory>
    requires closed { ClosedUpTo index.now.normal key.now (told_in facts.now) store.old.clauses
        store.old.live [] conclusions.items }
    requires in_turn { IsInTurn index.now.normal key.now (told_in facts.now) store.old.clauses }
    requires concluded { (d : List Elem) → OneOf d conclusions.items
        → ConcludesFrom index.now.normal key.now (λ c. OneOf c store.old.clauses)
        (told_in facts.now) d }
    ensures closed { OnOk result
        (ClosedUpTo index.now.normal key.now (told_in facts.now) store.new.clauses
        store.new.live [] []) }
    ensures in_turn { IsInTurn index.now.normal key.now (told_in facts.now) store.new.clauses }
    ensures continues { Continues store.old store.new }
{
    let mut waiting = Waiting::new(alloc);
    add_all(alloc, index, key, facts, store, &mut waiting, conclusions)?;
    close(alloc, index, key, facts, store, &mut waiting)
}

/// Adds the conclusions. Those that are new wait. The cost is that of adding each to the store.
fn add_all(
    alloc: Global,
    index: &Index,
    key: &Key,
    facts: &FactLists,
    store: &mut Store,
    waiting: &mut Waiting,
    conclusions: Vec<Clause>,
) -> Result<(), Memory>
    requires closed { ClosedUpTo index.now.normal key.now (told_in facts.now) store.old.clauses
        store.old.live (numbers waiting.old) conclusions.items }
    requires working { IsWorking index.now.normal key.now (told_in facts.now) store.old.clauses
        (numbers waiting.old) }
    requires concluded { (d : List Elem) → OneOf d conclusions.items
        → ConcludesFrom index.now.normal key.now (λ c. OneOf c store.old.clauses)
        (told_in facts.now) d }
    ensures closed { OnOk result
        (ClosedUpTo index.now.normal key.now (told_in facts.now) store.new.clauses
        store.new.live (numbers waiting.new) []) }
    ensures working { OnOk result
        (IsWorking index.now.normal key.now (told_in facts.now) store.new.clauses
        (numbers waiting.new)) }
    ensures in_turn { IsInTurn index.now.normal key.now (told_in facts.now) store.new.clauses }
    ensures continues { Continues store.old store.new }
    ensures stays { OnOk result (Stays store.old.live (numbers waiting.old) store.new.live
        (numbers waiting.new)) }
    ensures takes_up { OnOk result
        (TakesUpMore store.old.clauses (numbers waiting.old) store.new.clauses
        (numbers waiting.new)) }
{
    'conclusions: for conclusion in conclusions {
        let elements = conclusion.elems().len();
        match store.add(alloc, conclusion)? {
            Added::Held(_) => {}
            Added::New(number) => waiting.put(elements, number)?,
        }
    }
    Ok(())
}

/// Takes up what waits, the shortest first, until every conclusion is redundant. A clause that died while it waited is skipped.
///
/// Each clause that is taken up costs what the rules cost for it, with those clauses alone that can be of use beside it (`beside`), and
/// what adding the conclusions costs.
fn close(
    alloc: Global,
    index: &Index,
    key: &Key,
    facts: &FactLists,
    store: &mut Store,
    waiting: &mut Waiting,
) -> Result<(), Memory>
    requires closed { ClosedUpTo index.now.normal key.now (told_in facts.now) store.old.clauses
        store.old.live (numbers waiting.old) [] }
    requires working { IsWorking index.now.normal key.now (told_in facts.now) store.old.clauses
        (numbers waiting.old) }
    ensures closed { OnOk result
        (ClosedUpTo index.now.normal key.now (told_in facts.now) store.new.clauses
        store.new.live [] []) }
    ensures in_turn { IsInTurn index.now.normal key.now (told_in facts.now) store.new.clauses }
    ensures continues { Continues store.old store.new }
{
    'turns: while let Some(number) = waiting.take() {
        if !store.is_live(number) {
            continue;
        }
        let conclusions = conclude(alloc, index, key, facts, store, waiting, number)?;
        add_all(alloc, index, key, facts, store, waiting, conclusions)?;
    }
    Ok(())
}

/// Concludes what the rules give for the clause of this number, which is live, with the other live clauses that don't wait.
///
/// The cost is that of finding those that can be of use beside it, and of the rules with these.
fn conclude(
    alloc: Global,
    index: &Index,
    key: &Key,
    facts: &FactLists,
    store: &Store,
    waiting: &Waiting,
    number: usize,
) -> Result<Vec<Clause>, Memory>
    requires { OneOf number store.now.live }
    ensures only { IfOk result (λ conclusions. (d : List Elem) → OneOf d conclusions.items
        → ConcludesFrom index.now.normal key.now (λ c. OneOf c store.now.clauses)
        (told_in facts.now) d) }
    ensures every { IfOk result (λ conclusions.
        HasConcluded index.now.normal key.now (told_in facts.now) store.now.clauses
        store.now.live (numbers waiting.now) number conclusions.items) }
{
    let clauses = store.clauses();
    let others = beside(alloc, index, store, waiting, number)?;
    let mut conclusions = Vec::new(alloc);
    on_clause(
        alloc,
        index,
        key,
        clauses,
        others.as_slice(),
        number,
        facts.backs(),
        facts.sures(),
        facts.deads(),
        &mut conclusions,
    )?;
    Ok(conclusions)
}
