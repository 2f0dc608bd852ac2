//! A parser that takes one item after another, up to the first fault.
ghost use Rattle.std.specs.Prelude.{◌≡◌, ◌<◌, ◌≤◌, ◌+◌, ◌-◌, ◌^◌, Some, length, IfOk, OnOk};
ghost use Rattle.cd_grammar.specs.Causes.{stand_after};
ghost use Rattle.cd_syntax.specs.Grammar.{nesting};
ghost use Rattle.cd_grammar.specs.Machine.{step};
ghost use Rattle.cd_syntax.specs.Refusal.{refusal_at};
ghost use Rattle.cd_grammar.specs.Reading.{standing, started, IsTried};

use crate::cause::{find_cause, is_over, is_prefix_iri, wants_role};
use crate::places::advance;
use crate::symbol::{Stack, Symbol};
use cd_base::Memory;
use cd_syntax::{Cause, Item, Known, Refusal};
use std::alloc::Global;

/// What is known and wanted behind the items that came, or the first fault among them.
#[derive(Drop)]
pub struct Parser {
    pub known: Known,
    pub stack: Stack,
    pub stopped: Option<Refusal>,
}

impl Parser {
    /// No item came. Constant time.
    pub(crate) fn new(alloc: Global) -> Result<Parser, Memory>
        ensures { IfOk result (λ parser. standing parser ≡ started) }
    {
        let mut stack = Stack::new(alloc);
        stack.push(Symbol::Document)?;
        Ok(Parser {
            known: Known::begun(alloc)?,
            stack,
            stopped: None,
        })
    }

    /// Takes the next item, which stands at this place of the text. Behind a fault nothing changes.
    ///
    /// Constant time, but for look-ups of the IRIs that the item names.
    pub(crate) fn take(&mut self, alloc: Global, item: &Item, place: u64) -> Result<(), Memory>
        requires classes { length self.old.known.classes < 2 ^ 32 - 1 }
        requires roles { length self.old.known.roles < 2 ^ 32 - 1 }
        ensures stands { OnOk result (standing self.new
            ≡ stand_after (standing self.old) (item.now, place)) }
    {
        if self.stopped.is_some() {
            return Ok(());
        }
        if let Some(cause) = self.try_item(alloc, item)? {
            self.stop(cause, place);
        }
        Ok(())
    }

    /// Takes no more items: the first fault is this one, at this place.
    fn stop(&mut self, cause: Cause, place: u64)
        ensures { self.new ≡ record self.old { stopped = Some (refusal_at cause place) } }
    {
        self.stopped = Some(cause.at(place));
    }

    /// Takes the item, or says why it can't stand here.
    fn try_item(&mut self, alloc: Global, item: &Item) -> Result<Option<Cause>, Memory>
        requires classes { length self.old.known.classes < 2 ^ 32 - 1 }
        requires roles { length self.old.known.roles < 2 ^ 32 - 1 }
        ensures tried { IfOk result
            (λ found. IsTried (step nesting (Some (self.old.known, self.old.stack)) item.now)
            self.old self.new item.now found) }
    {
        let Some(symbol) = self.stack.pop() else {
            let bare = find_cause(alloc, &self.known, item, false, false, false)?;
            return Ok(Some(bare));
        };
        let role = wants_role(&symbol);
        let clash = is_prefix_iri(&symbol, item);
        let over = is_over(&symbol, item);
        if advance(alloc, &mut self.known, &mut self.stack, symbol, item)? {
            return Ok(None);
        }
        let found = find_cause(alloc, &self.known, item, role, clash, over)?;
        Ok(Some(found))
    }
}
