//! The rank of each atom.

use crate::told::ToldHierarchy;
use crate::walk::{Stage, stage_of, walk_up};
use cd_base::{Conj, Memory};
use std::alloc::Global;
use std::cmp::Reverse;

/// Where a class stands among the classes: by the longest way up from it, and where that is equal, those with smaller numbers are higher.
#[derive(Clone, Copy, PartialEq, Eq, PartialOrd, Ord)]
struct Standing {
    way_up: u32,
    class: Reverse<u32>,
}

/// For each atom its rank by the told hierarchy, in which an implication has each atom on its left below each on its right. The rank of a
/// class is its place among the classes, by the longest way up from it, in which a cycle is cut where it closes: so what is told to be
/// above a class has a lower rank. All other atoms are above the classes, by number.
///
/// No clause says so: any ranks are right, so that no contract above rests on what they are.
///
/// `n log n` in the classes, and linear in the atoms and the implications.
pub fn told_ranks(
    alloc: Global,
    atoms: u32,
    classes: u32,
    n1: &[Conj],
) -> Result<Vec<u32>, Memory> {
    let told = ToldHierarchy::of(alloc, atoms, n1)?;
    let stages = walk_up(alloc, &told)?;
    let mut standings = standings(alloc, classes, &stages)?;
    standings.sort_unstable();
    let mut ranks: Vec<u32> = (0..atoms).collect(alloc)?;
    let mut rank = 0u32;
    for standing in &standings {
        if let Some(slot) = ranks.get_mut(standing.class.0 as usize) {
            *slot = rank;
        }
        rank = rank.saturating_add(1);
    }
    Ok(ranks)
}

/// The standing of each class. Linear.
fn standings(alloc: Global, classes: u32, stages: &[Stage]) -> Result<Vec<Standing>, Memory> {
    let mut standings = Vec::new(alloc);
    for class in 0..classes {
        let way_up = match stage_of(stages, class) {
            Stage::Done(length) => length,
            _ => 0,
        };
        standings.push(Standing {
            way_up,
            class: Reverse(class),
        })?;
    }
    Ok(standings)
}
