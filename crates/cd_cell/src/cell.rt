//! Cells.
ghost use Rattle.std.specs.Prelude.{◌≡◌, ◌<◌, ◌++◌, ◌↔◌, ℕ, [], true, IfOk, OnOk, false, IsTrue};
ghost use Rattle.cd_base.specs.Lists.{OneOf, HasNoRepeats};
ghost use Rattle.cd_actor.specs.Meaning.{Keeps, IsSame, Delivers};
ghost use Rattle.cd_actor.specs.Sends.{sent, Sends};
ghost use Rattle.cd_cell.specs.Cells.{meaning, IsWhole, IsSound};
ghost use Rattle.cd_cell.specs.Lawful.{same_places, same_lawful, owed_lawful};
ghost use Rattle.cd_cell.specs.Subsumers.{HasContext, HasContextAt, IsReadingIn};
ghost use Rattle.cd_cell.specs.TrueAnswers.{IsTrueReadingIn, IsTrueTestIn};
ghost use Rattle.cd_context.specs.declared.facts.Note.{Note};

use crate::contexts::Contexts;
use crate::reading::{Reading, reading_of};
use crate::sending::send_all;
use cd_actor::{Actor, Outbox};
use cd_base::{Atom, Key, Memory};
use cd_context::Note;
use cd_index::Index;
use std::alloc::Global;
use std::marker::Model;

/// The contexts of the keys that have one place among so many cells.
#[derive(Debug, Drop)]
pub struct Cell<'a> {
    number: u32,
    cells: u32,
    index: &'a Index,
    contexts: Contexts,
    // Set while a delivery runs, so that it stays where the delivery wants for memory.
    failed: bool,
}

impl<'a> Model for Cell<'a> {
    ghost use Rattle.cd_cell.specs.Cells.{CellState, IsSound};

    ghost Value = { CellState };

    ghost view = { λ c. record {
      number = c.number;
      cells = c.cells;
      normal = c.index.now.normal;
      contexts = c.contexts;
      failed = c.failed;
    } };

    ghost invariant = { λ c. IsSound
        (record {
          number = c.number;
          cells = c.cells;
          normal = c.index.now.normal;
          contexts = c.contexts;
          failed = c.failed;
        }) };
}

impl<'a> Cell<'a> {
    /// The cell of this number among so many, without a context. Takes no memory and constant time.
    pub fn new(alloc: Global, number: u32, cells: u32, index: &'a Index) -> Cell<'a>
        requires { number < cells }
        ensures { result ≡ record {
          number = number;
          cells = cells;
          normal = index.now.normal;
          contexts = [];
          failed = false;
        } }
    {
        Cell {
            number,
            cells,
            index,
            contexts: Contexts::new(alloc),
            failed: false,
        }
    }

    /// Whether none of its deliveries has wanted for memory, so that it may take messages. Constant time.
    ///
    /// `sound`: whatever the answer, its contexts are those of distinct keys of its place that can be reached, with facts that are justified
    /// and clauses that are derived. So a caller learns this of a cell at any moment, also after a delivery that answered `Memory`.
    pub fn is_whole(&self) -> bool
        ensures whole { IsTrue result ↔ IsWhole self.now }
        ensures sound { IsSound self.now }
    {
        !self.failed
    }

    /// What the context of a named class tells of it: that it can have no member, or named classes that it is below, and those of which that
    /// is left open.
    ///
    /// `reading`: that is read off the live clauses of the context. `exact`: where the cell is one of closed cells, it is true in every model,
    /// and a class that isn't told has not all of its members. One look-up, and what `Context::open_names` and `Context::singles` take.
    pub fn read(&self, alloc: Global, atom: Atom) -> Result<Reading, Memory>
        requires here { HasContext self.now.contexts atom }
        ensures reading { IfOk result
            (λ reading. IsReadingIn self.now.normal self.now.contexts atom reading) }
        ensures exact { IfOk result (IsTrueReadingIn self.now atom) }
    {
        match self.contexts.get(&Key::single(alloc, atom)) {
            Some(context) => reading_of(alloc, self.index, context),
            // it has a context, so this arm isn't reached
            None => Ok(Reading::Unsatisfiable),
        }
    }

    /// Whether the context of the key has the empty clause: nothing can meet the key.
    ///
    /// `exact`: where the cell is one of closed cells, and the key is that of a class and negated ones, this decides whether each member of
    /// the class is in some of the others. One look-up.
    pub fn has_empty_at(&self, key: &Key) -> bool
        requires here { HasContextAt self.now.contexts key.now }
        ensures exact { IsTrueTestIn self.now key.now result }
    {
        match self.contexts.get(key) {
            Some(context) => context.has_empty(),
            // it has a context, so this arm isn't reached
            None => false,
        }
    }
}

impl<'a> Actor for Cell<'a> {
    type Msg = Note;

    ghost meaning = { meaning };

    ghost same_places = { λ c d e. same_places c d e };

    ghost same_lawful = { λ c d e p m l. same_lawful c d e p m l };

    ghost lawful_below = { λ c p m l. l.below };

    ghost owed_lawful = { λ c p m w o. owed_lawful c p m w o };

    fn deliver(
        &mut self,
        alloc: Global,
        message: Note,
        out: &mut Outbox<Note>,
    ) -> Result<(), Memory> {
        if self.has(&message) {
            return Ok(());
        }
        let Note { key, fact } = message;
        // The mark stands while the delivery runs, so that it is left where `?` returns.
        self.failed = true;
        let notes = self.contexts.tell(alloc, self.index, &key, fact)?;
        send_all(self.cells, notes, out)?;
        self.failed = false;
        Ok(())
    }

    fn has(&self, message: &Note) -> bool {
        self.contexts.has(message)
    }

    fn list_owed(&self, alloc: Global, out: &mut Outbox<Note>) -> Result<(), Memory> {
        let notes = self.contexts.list_owed(alloc, self.index)?;
        send_all(self.cells, notes, out)
    }

    fn contexts(&self) -> u64 {
        self.contexts.len()
    }

    fn facts(&self) -> u64 {
        self.contexts.facts()
    }
}
