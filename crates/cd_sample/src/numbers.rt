//! Cells that are no part of a reasoner: a cell of numbers has those that were delivered, and for each number n above 0 owes n - 1 to the
//! cell at place n - 1, counted round.
ghost use Rattle.std.specs.Prelude.{◌≡◌, ℕ, ◌<◌, ◌+◌, ◌-◌, ◌%◌, ◌==◌, ◌++◌, [], ◌∷◌, length, OnOk, OnErr, if◌then◌else◌};
ghost use Rattle.std.specs.List.{list_any};
ghost use Rattle.std.proofs.Common.{arith};
ghost use Rattle.cd_base.specs.Lists.{OneOf};

use cd_actor::{Actor, Outbox};
use cd_base::Memory;
use std::alloc::Global;
use std::marker::Model;

/// A cell at its place of so many, and its numbers in the order in which they came.
#[derive(Debug, Drop)]
pub struct Numbers {
    place: u32,
    places: u32,
    numbers: Vec<u32>,
}

impl Model for Numbers {
    ghost use Rattle.std.specs.Prelude.{ℕ, List, ◌<◌};
    ghost use Rattle.cd_base.specs.Lists.{HasNoRepeats};

    ghost Value = { ℕ × ℕ × List ℕ };

    ghost view = { λ c. (c.place, c.places, c.numbers.items) };

    ghost invariant = { λ c. (c.place < c.places) × HasNoRepeats c.numbers.items };
}

impl Actor for Numbers {
    type Msg = u32;

    ghost meaning = { record {
      Family = ℕ;
      family = λ c. c.1;
      place = λ c. c.0;
      places = λ c. c.1;
      lawful = λ c p m. p < c.1;
      has = λ c m. list_any (λ n. n == m) c.2;
      owes = λ c p m. OneOf (m + 1) c.2 × (p ≡ m % c.1);
      whole = λ c. c.0 < c.1;
      contexts = λ c. 0;
      facts = λ c. length c.2;
    } };

    ghost same_places = { λ c d e. e };

    ghost same_lawful = { λ c d e p m l. let at : c.1 ≡ d.1 = e in Prim.omega arith };

    ghost lawful_below = { λ c p m l. l };

    ghost owed_lawful = { λ c p m w o. let e : p ≡ m % c.1 = o.1 in Prim.omega arith };

    fn deliver(
        &mut self,
        _alloc: Global,
        message: u32,
        out: &mut Outbox<u32>,
    ) -> Result<(), Memory> {
        if self.has(&message) {
            return Ok(());
        }
        self.numbers.push(message)?;
        put_owed(self.places, message, out)?;
        Ok(())
    }

    fn has(&self, message: &u32) -> bool {
        self.numbers.as_slice().contains(message)
    }

    fn list_owed(&self, _alloc: Global, out: &mut Outbox<u32>) -> Result<(), Memory> {
        for number in &self.numbers {
            put_owed(self.places, *number, out)?;
        }
        Ok(())
    }

    fn contexts(&self) -> u64 {
        0
    }

    fn facts(&self) -> u64 {
        self.numbers.len() as u64
    }
}

/// Appends what the number owes.
fn put_owed(places: u32, number: u32, out: &mut Outbox<u32>) -> Result<(), Memory>
    requires { 0 < places }
    ensures ok { OnOk result (out.new
        ≡ out.old ++ (if number == 0 then [] else ((number - 1) % places, number - 1) ∷ [])) }
    ensures err { OnErr result (out.new ≡ out.old) }
{
    if number > 0 {
        let next = number - 1;
        out.put(next % places, next)?;
    }
    Ok(())
}

/// The cell of this place of two, without numbers.
pub fn empty_cell(alloc: Global, place: u32) -> Numbers
    requires { place < 2 }
    ensures { result ≡ (place, 2, []) }
{
    Numbers {
        place,
        places: 2,
        numbers: Vec::new(alloc),
    }
}

/// The numbers of the cells, one cell after another.
pub fn numbers_of(alloc: Global, cells: &[Numbers]) -> Result<Vec<u32>, Memory> {
    let mut all = Vec::new(alloc);
    for cell in cells {
        all.extend_from_slice(cell.numbers.as_slice())?;
    }
    Ok(all)
}
