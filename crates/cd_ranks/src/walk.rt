//! The longest way up from each node of the told hierarchy.

use crate::told::ToldHierarchy;
use cd_base::Memory;
use std::alloc::Global;

/// How far the walk has come with a node: it has not been there, it is at what is above it, or it has left, and this is how long the
/// longest way up is.
#[derive(Clone, Copy, PartialEq, Eq)]
pub(crate) enum Stage {
    New,
    Open,
    Done(u32),
}

/// A node that is open, and how many of the nodes above it have been taken up.
#[derive(Clone, Copy)]
struct Visit {
    node: u32,
    taken: usize,
}

/// For each node how long the longest way up is, by a depth-first walk. An edge that comes back to an open node is left out, so that a
/// cycle is cut where it closes. Linear in the nodes and the edges.
pub(crate) fn walk_up(alloc: Global, told: &ToldHierarchy) -> Result<Vec<Stage>, Memory> {
    let mut stages = vec![in alloc; Stage::New; told.nodes as usize]?;
    let mut open = Vec::new(alloc);
    for node in 0..told.nodes {
        if stage_of(&stages, node) == Stage::New {
            enter(&mut stages, &mut open, node)?;
            climb(told, &mut stages, &mut open)?;
        }
    }
    Ok(stages)
}

/// Walks on until no node is open. Linear in the new nodes that the open ones lead to, and their edges.
fn climb(
    told: &ToldHierarchy,
    stages: &mut Vec<Stage>,
    open: &mut Vec<Visit>,
) -> Result<(), Memory> {
    // A turn goes along an edge or leaves a node, each once in the whole walk, so that there are no more turns than these.
    for _ in 0..told.steps() {
        let Some(Visit { node, taken }) = open.pop() else {
            return Ok(());
        };
        match told.above(node).get(taken) {
            Some(above) => {
                open.push(Visit {
                    node,
                    taken: taken.saturating_add(1),
                })?;
                if stage_of(stages, *above) == Stage::New {
                    enter(stages, open, *above)?;
                }
            }
            None => {
                let length = way_up(told, stages, node);
                set_stage(stages, node, Stage::Done(length));
            }
        }
    }
    Ok(())
}

/// Opens a node. Constant time, but for growing the list.
fn enter(stages: &mut Vec<Stage>, open: &mut Vec<Visit>, node: u32) -> Result<(), Memory> {
    open.push(Visit { node, taken: 0 })?;
    set_stage(stages, node, Stage::Open);
    Ok(())
}

/// The longest way up from a node by what is known of those above it. Linear in these.
fn way_up(told: &ToldHierarchy, stages: &[Stage], node: u32) -> u32 {
    let mut longest = 0u32;
    for above in told.above(node) {
        if let Stage::Done(rest) = stage_of(stages, *above) {
            longest = longest.max(rest.saturating_add(1));
        }
    }
    longest
}

/// The stage of a node; one that is none counts as open, so that nothing goes there. Constant time.
pub(crate) fn stage_of(stages: &[Stage], node: u32) -> Stage {
    match stages.get(node as usize) {
        Some(stage) => *stage,
        None => Stage::Open,
    }
}

fn set_stage(stages: &mut [Stage], node: u32, stage: Stage) {
    if let Some(slot) = stages.get_mut(node as usize) {
        *slot = stage;
    }
}
