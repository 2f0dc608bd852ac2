//! Cells that are worked until each conclusion is redundant.
ghost use Rattle.std.specs.Prelude.{◌≡◌, ◌<◌, ◌++◌, ℕ, true, length, IfOk, IfErr, OnOk};
ghost use Rattle.cd_actor.specs.Cells.{AreAllLawful, AreCells, AreOf};
ghost use Rattle.cd_actor.specs.Settled.{IsSettled};
ghost use Rattle.cd_base.specs.Keys.{is_named};
ghost use Rattle.cd_base.specs.declared.normal.Normal.{Normal};
ghost use Rattle.cd_cell.specs.Cells.{meaning, place_of};
ghost use Rattle.cd_saturation.specs.Limit.{HasHalted};
ghost use Rattle.cd_saturation.specs.Saturation.{AreNew, AreRun, AreStarts, start_at};

use crate::halt::Halt;
use cd_base::{Atom, Key, Limits, Memory};
use cd_cell::Cell;
use cd_context::{Fact, Note};
use cd_core::Core;
use cd_index::Index;
use std::alloc::Global;

/// Cells with the contexts of the first classes and of all that these lead to, closed under the rules.
///
/// The cost is that of the rules for each clause of each context, and of a delivery for each fact.
pub fn saturate<'a>(
    alloc: Global,
    index: &'a Index,
    classes: u32,
    limits: &Limits,
) -> Result<Vec<Cell<'a>>, Halt>
    requires named { (a : ℕ) → a < classes → is_named index.now.normal a ≡ true }
    ensures run { IfOk result
        (λ cells. AreRun index.now.normal limits.now.cells classes cells.items) }
    ensures halted { IfErr result
        (HasHalted index.now.normal limits.now.max_contexts limits.now.max_facts) }
{
    let start = start_messages(alloc, classes, limits.cells)?;
    let cells = new_cells(alloc, index, limits.cells)?;
    run_on(alloc, cells, start, limits)
}

/// The cells, after each start message and all that comes of them. They are closed under the rules, and have what they had.
///
/// The cost is that of the rules for each new clause of each context, and of a delivery for each new fact, and linear in what the cells
/// owe each other.
pub(crate) fn run_on<'a>(
    alloc: Global,
    cells: Vec<Cell<'a>>,
    start: Vec<(u32, Note)>,
    limits: &Limits,
) -> Result<Vec<Cell<'a>>, Halt>
    requires cells { AreCells meaning cells.items }
    requires start { AreAllLawful meaning cells.items start.items }
    ensures settled { IfOk result
        (λ after. IsSettled meaning cells.entry.items start.items after.items) }
    ensures halted { IfErr result (λ halt. (count : ℕ) (n : Normal)
        → AreOf meaning (count, n) cells.entry.items
        → HasHalted n limits.now.max_contexts limits.now.max_facts halt) }
{
    let core = Core::resume(alloc, cells, start)?;
    let cells = core.finish(alloc, limits)?;
    Ok(cells)
}

/// So many cells without contexts. Linear in their number.
fn new_cells<'a>(alloc: Global, index: &'a Index, count: u32) -> Result<Vec<Cell<'a>>, Memory>
    ensures { IfOk result (λ cells. AreNew index.now.normal count cells.items) }
{
    let mut cells = Vec::new(alloc);
    for number in 0..count {
        cells.push(Cell::new(alloc, number, count, index))?;
    }
    Ok(cells)
}

/// Which of so many cells has the context of the key. Linear in its literals.
pub(crate) fn place_of(key: &Key, count: u32) -> usize
    requires { 0 < count }
    ensures { result ≡ place_of count key.now }
{
    key.place(count) as usize
}

/// The message that begins the context of the key. Linear in its literals.
pub(crate) fn start_message(key: Key, count: u32) -> (u32, Note)
    requires { 0 < count }
    ensures { result ≡ start_at count key }
{
    let cell = key.place(count);
    let fact = Fact::Start;
    (cell, Note { key, fact })
}

/// The messages that begin the contexts of the first classes, by number. Linear in their number.
fn start_messages(alloc: Global, classes: u32, count: u32) -> Result<Vec<(u32, Note)>, Memory>
    requires { 0 < count }
    ensures { IfOk result (λ start. AreStarts count classes start.items) }
{
    let mut start = Vec::new(alloc);
    for class in 0..classes {
        start.push(start_message(Key::single(alloc, Atom(class)), count))?;
    }
    Ok(start)
}
