//! A core of one cell over the hand-made index. Expected values are written by hand.
//! What has many parts is let go of by `drop`, which the prover takes as one step.
ghost use Rattle.std.specs.Prelude.{◌≡◌, [], ◌∷◌, true};
ghost use Rattle.cd_base.specs.Keys.{is_named};
ghost use Rattle.cd_sample.specs.CoreRuns.{IsUnderWay, IsWorked};
ghost use Rattle.cd_saturation.specs.Saturation.{AreNew, start_of};

use crate::sample::hand_made;
use cd_actor::Actor;
use cd_base::{Atom, Key, Limits};
use cd_cell::{Cell, Reading};
use cd_context::{Fact, Note};
use cd_core::{Core, Step};
use cd_index::Index;
use std::alloc::Global;
use std::process::Abort;

/// The only cell, without contexts.
fn new_cells<'a>(rt: &impl Abort, alloc: Global, index: &'a Index) -> Vec<Cell<'a>>
    ensures { AreNew index.now.normal 1 result.items }
{
    let cell = Cell::new(alloc, 0, 1, index);
    vec![in alloc; cell].expect(rt, "memory")
}

/// The message that begins the context of the class 2.
fn start_message(alloc: Global) -> (u32, Note)
    ensures { result ≡ start_of 1 2 }
{
    let key = Key::single(alloc, Atom(2));
    let fact = Fact::Start;
    (0, Note { key, fact })
}

/// That message alone.
fn start_messages(rt: &impl Abort, alloc: Global) -> Vec<(u32, Note)>
    ensures { result.items ≡ start_of 1 2 ∷ [] }
{
    vec![in alloc; start_message(alloc)].expect(rt, "memory")
}

/// A core of the only cell, where the message pends that begins the context of the class 2.
fn begun_core<'a>(rt: &impl Abort, alloc: Global, index: &'a Index) -> Core<Cell<'a>>
    requires { is_named index.now.normal 2 ≡ true }
    ensures { IsUnderWay 2 result }
{
    let cells = new_cells(rt, alloc, index);
    let start = start_messages(rt, alloc);
    Core::resume(alloc, cells, start).expect(rt, "memory")
}

/// The step of this choice.
fn stepped<'a>(rt: &impl Abort, alloc: Global, core: &mut Core<Cell<'a>>, choice: usize) -> Step
    requires { IsUnderWay 2 core.now }
    ensures { IsUnderWay 2 core.new }
{
    match core.step(alloc, choice) {
        Ok(step) => step,
        Err(_) => panic!(rt; "memory"),
    }
}

/// Whether one message pends, and is then delivered.
fn is_delivered<'a>(rt: &impl Abort, alloc: Global, core: &mut Core<Cell<'a>>) -> bool
    requires { IsUnderWay 2 core.now }
    ensures { IsUnderWay 2 core.new }
{
    let alone = core.pending() == 1;
    let step = stepped(rt, alloc, core, 0);
    alone && step == Step::Delivered
}

/// Delivers the messages of the choices 0, 1, 2 and so on. Whether nothing is left that pends.
fn is_delivered_by_choices<'a>(rt: &impl Abort, alloc: Global, core: &mut Core<Cell<'a>>) -> bool
    requires { IsUnderWay 2 core.now }
    ensures { IsUnderWay 2 core.new }
{
    for choice in 0..100usize {
        if stepped(rt, alloc, core, choice) == Step::Empty {
            return true;
        }
    }
    false
}

/// The cells at the end of the run.
fn worked<'a>(rt: &impl Abort, alloc: Global, core: Core<Cell<'a>>) -> Vec<Cell<'a>>
    requires { IsUnderWay 2 core }
    ensures { IsWorked 2 result.items }
{
    match core.finish(alloc, &Limits::standard()) {
        Ok(cells) => cells,
        Err(_) => panic!(rt; "the run stops"),
    }
}

/// Whether these are the atoms 0, 2, 3 and 5.
fn are_the_four(atoms: &[Atom]) -> bool {
    atoms == [Atom(0), Atom(2), Atom(3), Atom(5)].as_slice()
}

/// Whether the class 2 is below 0, 2, 3 and 5 in a cell of two contexts.
fn has_the_answer<'a>(rt: &impl Abort, alloc: Global, cells: &[Cell<'a>]) -> bool
    requires { IsWorked 2 cells.now }
{
    let [cell] = cells else {
        return false;
    };
    let reading = cell.read(alloc, Atom(2)).expect(rt, "memory");
    match reading {
        Reading::Of(above, open) => {
            cell.contexts() == 2 && are_the_four(above.items()) && open.items().is_empty()
        }
        Reading::Unsatisfiable => false,
    }
}

/// Whether nothing pends in a core of these cells, whatever the choice.
fn is_empty<'a>(rt: &impl Abort, alloc: Global, cells: Vec<Cell<'a>>) -> bool
    requires { IsWorked 2 cells.items }
{
    let mut core = Core::resume(alloc, cells, Vec::new(alloc)).expect(rt, "memory");
    let none = core.pending() == 0;
    let step = core.step(alloc, 7).expect(rt, "memory");
    drop(core);
    none && step == Step::Empty
}

#[test]
fn a_start_message_leads_to_the_contexts_that_answer(rt: HostRuntime) {
    let index = hand_made(&rt, rt.alloc());
    let mut core = begun_core(&rt, rt.alloc(), &index);
    assert!(rt; is_delivered(&rt, rt.alloc(), &mut core));
    let cells = worked(&rt, rt.alloc(), core);
    assert!(rt; has_the_answer(&rt, rt.alloc(), &cells));
    drop(cells);
    drop(index);
}

#[test]
fn other_choices_lead_to_the_same_contexts(rt: HostRuntime) {
    let index = hand_made(&rt, rt.alloc());
    let mut core = begun_core(&rt, rt.alloc(), &index);
    assert!(rt; is_delivered_by_choices(&rt, rt.alloc(), &mut core));
    let cells = worked(&rt, rt.alloc(), core);
    assert!(rt; has_the_answer(&rt, rt.alloc(), &cells));
    drop(cells);
    drop(index);
}

#[test]
fn worked_cells_owe_nothing_that_is_not_had(rt: HostRuntime) {
    let index = hand_made(&rt, rt.alloc());
    let mut core = begun_core(&rt, rt.alloc(), &index);
    assert!(rt; is_delivered(&rt, rt.alloc(), &mut core));
    let cells = worked(&rt, rt.alloc(), core);
    assert!(rt; is_empty(&rt, rt.alloc(), cells));
    drop(index);
}
