//! Deliveries over the parts of a core.
ghost use Rattle.std.specs.Prelude.{◌≡◌, ◌+◌, ◌<◌, ◌≤◌, ◌⊎◌, ◌∷◌, ◌++◌, OnOk, IfOk, true, false, []};
ghost use Rattle.cd_actor.specs.Sends.{sent};
ghost use Rattle.cd_base.specs.Counts.{last};
ghost use Rattle.cd_actor.specs.Cells.{total};
ghost use Rattle.cd_actor.specs.Settled.{KeepsFamily, KeepsHad};
ghost use Rattle.cd_core.specs.State.{Runs, KeepsAll};
ghost use Rattle.cd_core.specs.Steps.{IsTurn};
ghost use Rattle.cd_core.specs.Ends.{IsOneDeliveryPast};

use cd_actor::{Actor, Outbox};
use cd_base::Memory;
use std::alloc::Global;

/// Delivers the message to its cell, and keeps the two sums. After `Memory` the cell may not be whole.
pub(crate) fn deliver_to<A: Actor>(
    alloc: Global,
    cells: &mut Vec<A>,
    pending: &mut Outbox<A::Msg>,
    contexts: &mut u64,
    facts: &mut u64,
    cell: u32,
    message: A::Msg,
) -> Result<(), Memory>
    requires runs { Runs A.meaning cells.old.items ((cell, message) ∷ pending.old) }
    requires contexts { contexts.old ≡ total A.meaning.contexts cells.old.items }
    requires facts { facts.old ≡ total A.meaning.facts cells.old.items }
    ensures turn { OnOk result (IsTurn A.meaning cells.old.items (cell, message) cells.new.items
        (sent pending.old pending.new)) }
    ensures follows { OnOk result (pending.new ≡ pending.old ++ sent pending.old pending.new) }
    ensures runs { OnOk result (Runs A.meaning cells.new.items pending.new) }
    ensures keeps { OnOk result (KeepsAll A.meaning cells.old.items
        ((cell, message) ∷ pending.old) cells.new.items pending.new) }
    ensures had { OnOk result (KeepsHad A.meaning cells.old.items cells.new.items) }
    ensures family { OnOk result (KeepsFamily A.meaning cells.old.items cells.new.items) }
    ensures contexts { OnOk result (contexts.new ≡ total A.meaning.contexts cells.new.items) }
    ensures facts { OnOk result (facts.new ≡ total A.meaning.facts cells.new.items) }
    ensures more_contexts { OnOk result (contexts.old ≤ contexts.new) }
    ensures more_facts { OnOk result (facts.old ≤ facts.new) }
    ensures rises { OnOk result (contexts.old < last → facts.old < last
        → (contexts.old + facts.old < contexts.new + facts.new) ⊎ (pending.new ≡ pending.old)) }
{
    let place = cell as usize;
    let actor = &mut cells[place];
    let contexts_before = actor.contexts();
    let facts_before = actor.facts();
    actor.deliver(alloc, message, pending)?;
    let contexts_after = actor.contexts();
    let facts_after = actor.facts();
    *contexts = contexts.saturating_add(contexts_after - contexts_before);
    *facts = facts.saturating_add(facts_after - facts_before);
    Ok(())
}

/// Delivers the oldest messages until a sum has risen. Whether one has; otherwise nothing pends.
///
/// Until then no message was new to its cell, so what pends only grows shorter. `turn`: before the delivery that raised a sum, neither had
/// risen.
pub(crate) fn deliver_until_new<A: Actor>(
    alloc: Global,
    cells: &mut Vec<A>,
    pending: &mut Outbox<A::Msg>,
    contexts: &mut u64,
    facts: &mut u64,
) -> Result<bool, Memory>
where
    A::Msg: Drop,
    requires runs { Runs A.meaning cells.old.items pending.old }
    requires contexts { contexts.old ≡ total A.meaning.contexts cells.old.items }
    requires facts { facts.old ≡ total A.meaning.facts cells.old.items }
    requires fewer_contexts { contexts.old < last }
    requires fewer_facts { facts.old < last }
    ensures runs { OnOk result (Runs A.meaning cells.new.items pending.new) }
    ensures keeps { OnOk result (KeepsAll A.meaning cells.old.items pending.old cells.new.items
        pending.new) }
    ensures had { OnOk result (KeepsHad A.meaning cells.old.items cells.new.items) }
    ensures family { OnOk result (KeepsFamily A.meaning cells.old.items cells.new.items) }
    ensures contexts { OnOk result (contexts.new ≡ total A.meaning.contexts cells.new.items) }
    ensures facts { OnOk result (facts.new ≡ total A.meaning.facts cells.new.items) }
    ensures more_contexts { OnOk result (contexts.old ≤ contexts.new) }
    ensures more_facts { OnOk result (facts.old ≤ facts.new) }
    ensures risen { IfOk result (λ b. b ≡ true
        → contexts.old + facts.old < contexts.new + facts.new) }
    ensures turn { IfOk result (λ b. b ≡ true
        → IsOneDeliveryPast A.meaning cells.old.items (contexts.old + 1)
        (facts.old + 1) cells.new.items) }
    ensures done { IfOk result (λ b. b ≡ false
        → (pending.new ≡ []) × (contexts.new ≡ contexts.old) × (facts.new ≡ facts.old)) }
{
    let contexts_before = *contexts;
    let facts_before = *facts;
    'turns: while let Some((cell, message)) = pending.take() {
        deliver_to(alloc, cells, pending, contexts, facts, cell, message)?;
        if *contexts != contexts_before || *facts != facts_before {
            return Ok(true);
        }
    }
    Ok(false)
}
