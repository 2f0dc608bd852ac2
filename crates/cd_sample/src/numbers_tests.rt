//! Cores over cells of numbers. Expected values are written by hand.
//! What has many parts is let go of by `drop`, which the prover takes as one step.
use crate::numbers::{Numbers, empty_cell, numbers_of};
use cd_base::{LimitKind, Limits};
use cd_core::{Core, Step, Stop};
use std::alloc::Global;
use std::process::Abort;

/// Two cells without numbers, where 5 pends for the second.
fn core_of_five(rt: &impl Abort, alloc: Global) -> Core<Numbers> {
    let cells = vec![in alloc; empty_cell(alloc, 0), empty_cell(alloc, 1)].expect(rt, "memory");
    let start = vec![in alloc; (1, 5)].expect(rt, "memory");
    Core::resume(alloc, cells, start).expect(rt, "memory")
}

/// Limits of a run that differ in the facts alone.
fn up_to(rt: &impl Abort, max_facts: u64) -> Limits {
    Limits::with(1, 1, 1, 1, max_facts).expect(rt, "limits in range")
}

/// Whether the step of this choice delivers a message.
fn delivers(rt: &impl Abort, alloc: Global, core: &mut Core<Numbers>, choice: usize) -> bool {
    core.step(alloc, choice).expect(rt, "memory") == Step::Delivered
}

/// The cells at the end of the run, which comes to fewer facts than these.
fn finished(rt: &impl Abort, alloc: Global, core: Core<Numbers>, max_facts: u64) -> Vec<Numbers> {
    match core.finish(alloc, &up_to(rt, max_facts)) {
        Ok(cells) => cells,
        Err(_) => panic!(rt; "the run stops"),
    }
}

/// Whether the cells have these numbers, one cell after another.
fn have(rt: &impl Abort, alloc: Global, cells: &[Numbers], numbers: &[u32]) -> bool {
    let all = numbers_of(alloc, cells).expect(rt, "memory");
    let holds = all.as_slice() == numbers;
    drop(all);
    holds
}

#[test]
fn a_run_comes_to_all_that_is_owed(rt: HostRuntime) {
    let mut core = core_of_five(&rt, rt.alloc());
    assert!(rt; core.pending() == 1);
    assert!(rt; delivers(&rt, rt.alloc(), &mut core, 7));
    assert!(rt; core.pending() == 1);
    let cells = finished(&rt, rt.alloc(), core, 7);
    assert!(rt; have(&rt, rt.alloc(), &cells, &[4, 2, 0, 5, 3, 1]));
    drop(cells);
}

#[test]
fn a_step_delivers_the_message_of_its_choice(rt: HostRuntime) {
    let alloc = rt.alloc();
    let cells = vec![in alloc; empty_cell(alloc, 0), empty_cell(alloc, 1)].expect(&rt, "memory");
    let start = vec![in alloc; (0, 0), (1, 0), (0, 2)].expect(&rt, "memory");
    let mut core = Core::resume(alloc, cells, start).expect(&rt, "memory");
    // Choice 4 of three messages is the second. Then 2 is delivered, and 1, which it owes, pends behind the first 0.
    assert!(rt; delivers(&rt, alloc, &mut core, 4));
    assert!(rt; delivers(&rt, alloc, &mut core, 1));
    assert!(rt; core.pending() == 2);
    assert!(rt; delivers(&rt, alloc, &mut core, 1));
    let cells = finished(&rt, alloc, core, 9);
    assert!(rt; have(&rt, alloc, &cells, &[2, 0, 0, 1]));
    drop(cells);
}

#[test]
fn a_run_stops_at_its_maximum_and_goes_on_from_its_cells(rt: HostRuntime) {
    let alloc = rt.alloc();
    let core = core_of_five(&rt, alloc);
    match core.finish(alloc, &up_to(&rt, 3)) {
        Err(Stop::Limit(LimitKind::Facts, 3, cells)) => {
            assert!(rt; have(&rt, alloc, &cells, &[4, 5, 3]));
            let core = Core::resume(alloc, cells, Vec::new(alloc)).expect(&rt, "memory");
            assert!(rt; core.pending() == 1);
            let cells = finished(&rt, alloc, core, 7);
            assert!(rt; have(&rt, alloc, &cells, &[4, 2, 0, 5, 3, 1]));
            drop(cells);
        }
        _ => panic!(rt; "no stop at three facts"),
    }
}

#[test]
fn a_core_without_messages_is_empty(rt: HostRuntime) {
    let alloc = rt.alloc();
    let cells = vec![in alloc; empty_cell(alloc, 0), empty_cell(alloc, 1)].expect(&rt, "memory");
    let mut core = Core::resume(alloc, cells, Vec::new(alloc)).expect(&rt, "memory");
    assert!(rt; core.pending() == 0);
    assert!(rt; !delivers(&rt, alloc, &mut core, 3));
    let cells = finished(&rt, alloc, core, 1);
    assert!(rt; cells.len() == 2);
    drop(cells);
}
