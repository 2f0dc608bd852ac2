//! Cores: cells and the messages that pend.
ghost use Rattle.std.specs.Prelude.{◌≡◌, true, false, length, IfOk, IfErr, OnOk, OnErr};
ghost use Rattle.cd_actor.specs.Cells.{AreCells, AreAllLawful};
ghost use Rattle.cd_actor.specs.Settled.{KeepsFamily};
ghost use Rattle.cd_core.specs.State.{Runs, KeepsAll};
ghost use Rattle.cd_core.specs.Begin.{IsBegun};
ghost use Rattle.cd_core.specs.Steps.{IsStepOrEmpty};
ghost use Rattle.cd_core.specs.Ends.{IsEnd, IsStop, StopsAtOnce};

use crate::stops::{Step, Stop};
use crate::turn::{deliver_to, deliver_until_new};
use cd_actor::{Actor, Outbox, put_owed, reached, sum_contexts, sum_facts};
use cd_base::{Limits, Memory};
use std::alloc::Global;
use std::marker::Model;

/// Cells and the messages that pend. Contracts see also whether a delivery has wanted for memory: such a core answers `Memory` alone.
#[derive(Drop)]
pub struct Core<A: Actor> {
    cells: Vec<A>,
    pending: Outbox<A::Msg>,
    // The sums of the contexts and of the facts of the cells.
    contexts: u64,
    facts: u64,
    failed: bool,
}

impl<A: Actor> Model for Core<A> {
    ghost use Rattle.cd_core.specs.State.{CoreState, IsSound};

    ghost Value = { CoreState A A.Msg };

    ghost view = { λ c. record { cells = c.cells.items; pending = c.pending; failed = c.failed } };

    ghost invariant = { λ c. IsSound A.meaning c.cells.items c.pending c.contexts c.facts
        c.failed };
}

impl<A: Actor> Core<A> {
    /// A core over these cells. The start messages pend, and then, by cell, what is owed and not had. Linear in the cells, the start
    /// messages and what is owed.
    pub fn resume(
        alloc: Global,
        cells: Vec<A>,
        start: Vec<(u32, A::Msg)>,
    ) -> Result<Core<A>, Memory>
    where
        A: Drop,
        A::Msg: Drop,
        requires cells { AreCells A.meaning cells.items }
        requires start { AreAllLawful A.meaning cells.items start.items }
        ensures begun { IfOk result (λ core. IsBegun A.meaning cells.items start.items core) }
        ensures sound { IfOk result (λ core. Runs A.meaning core.cells core.pending) }
    {
        let mut pending = Outbox::new(alloc);
        for (cell, message) in start {
            pending.put(cell, message)?;
        }
        put_owed(alloc, &cells, &mut pending)?;
        let contexts = sum_contexts(&cells);
        let facts = sum_facts(&cells);
        Ok(Core {
            cells,
            pending,
            contexts,
            facts,
            failed: false,
        })
    }

    /// How many messages pend. Constant time.
    pub fn pending(&self) -> usize
        ensures { result ≡ length self.now.pending }
    {
        self.pending.len()
    }

    /// Delivers one of the messages that pend, the oldest at choice 0; a choice beyond them counts on from the oldest. Linear in what
    /// pends, beside the delivery. After `Memory` each call answers `Memory`.
    pub fn step(&mut self, alloc: Global, choice: usize) -> Result<Step, Memory>
    where
        A: Drop,
        A::Msg: Drop,
        ensures ok { IfOk result (λ step. IsStepOrEmpty A.meaning choice self.old self.new step) }
        ensures keeps { OnOk result
            (KeepsAll A.meaning self.old.cells self.old.pending self.new.cells self.new.pending) }
        ensures family { OnOk result (KeepsFamily A.meaning self.old.cells self.new.cells) }
        ensures sound { OnOk result (Runs A.meaning self.new.cells self.new.pending) }
        ensures stands { OnOk result (self.new.failed ≡ false) }
        ensures failed { OnErr result (self.new.failed ≡ true) }
        ensures spent { self.old.failed ≡ true → OnOk result ⊥ }
    {
        if self.failed {
            return Err(Memory);
        }
        let count = self.pending.len();
        if count == 0 {
            return Ok(Step::Empty);
        }
        let place = choice % count;
        let Some((cell, message)) = self.pending.take_at(place) else {
            return Ok(Step::Empty);
        };
        // The mark stands while the delivery runs, so that it is left where `?` returns.
        self.failed = true;
        deliver_to(
            alloc,
            &mut self.cells,
            &mut self.pending,
            &mut self.contexts,
            &mut self.facts,
            cell,
            message,
        )?;
        self.failed = false;
        Ok(Step::Delivered)
    }

    /// Delivers the oldest messages until nothing pends or a sum has reached its maximum. The cells, which then have all that they owe
    /// each other.
    ///
    /// `Limit` where a sum has reached its maximum, the contexts first, with that sum and the cells. Nothing is delivered from then on;
    /// `at_once` says so as far as the laws of an actor tell one delivery from several to one cell. `Memory` where a delivery has wanted
    /// for memory, here or before.
    pub fn finish(self, alloc: Global, limits: &Limits) -> Result<Vec<A>, Stop<A>>
    where
        A: Drop,
        A::Msg: Drop,
        ensures ok { IfOk result (λ cells.
            IsEnd A.meaning self.cells self.pending limits.now.max_contexts limits.now.max_facts
            cells.items) }
        ensures stop { IfErr result
            (λ stop. IsStop A.meaning self.cells limits.now.max_contexts limits.now.max_facts
            stop) }
        ensures at_once { IfErr result
            (λ stop. StopsAtOnce A.meaning self.cells limits.now.max_contexts limits.now.max_facts
            stop) }
        ensures spent { self.failed ≡ true → IfOk result (λ _. ⊥) }
    {
        let Core {
            mut cells,
            mut pending,
            mut contexts,
            mut facts,
            failed,
        } = self;
        if failed {
            return Err(Stop::Memory);
        }
        'rounds: loop {
            if let Some((kind, number)) = reached(contexts, facts, limits) {
                return Err(Stop::Limit(kind, number, cells));
            }
            match deliver_until_new(alloc, &mut cells, &mut pending, &mut contexts, &mut facts) {
                Ok(true) => {}
                Ok(false) => return Ok(cells),
                Err(_) => return Err(Stop::Memory),
            }
        }
    }
}
