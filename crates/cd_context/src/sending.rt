//! Sending what a context came to owe: all of it, or after `Memory` nothing.
ghost use Rattle.std.specs.Prelude.{◌≡◌, nat_lt, filter, List, OnOk, OnErr};
ghost use Rattle.cd_context.specs.Contract.{Sends};
ghost use Rattle.cd_context.specs.Owes.{Owes};
ghost use Rattle.cd_rules.specs.declared.facts.BackFact.{BackFact};
ghost use Rattle.cd_rules.specs.declared.facts.DeadFact.{DeadFact};
ghost use Rattle.cd_rules.specs.declared.facts.SureFact.{SureFact};

use crate::facts::{LinkFact, Note};
use crate::owing::owe_since;
use cd_base::{Key, Memory};
use cd_index::Index;
use cd_store::Store;
use std::alloc::Global;

/// Appends what the live clauses with numbers from `stored` on owe, or nothing where memory runs out.
///
/// Linear in these clauses, each time in the links where a clause has an atom of use, and in what is appended.
pub(crate) fn send_since(
    alloc: Global,
    index: &Index,
    key: &Key,
    store: &Store,
    links: &[LinkFact],
    stored: usize,
    out: &mut Vec<Note>,
) -> Result<(), Memory>
    ensures ok { OnOk result ((backs : List BackFact) (sures : List SureFact) (deads : List DeadFact)
        → Sends index.now.normal (Unit {0})
        (Owes index.now.normal (record {
          key = key.now;
          clauses = store.now.clauses;
          live = filter (λ k. nat_lt k stored) store.now.live;
          links = links.now;
          backs = backs;
          sures = sures;
          deads = deads;
        }))
        (record {
          key = key.now;
          clauses = store.now.clauses;
          live = store.now.live;
          links = links.now;
          backs = backs;
          sures = sures;
          deads = deads;
        })
        out.old.items out.new.items) }
    ensures err { OnErr result (out.new.items ≡ out.old.items) }
{
    let mut notes = Vec::new(alloc);
    owe_since(alloc, index, key, store, links, stored, &mut notes)?;
    out.append(&mut notes)?;
    Ok(())
}
