//! The told hierarchy, as a graph.

use cd_base::{Atom, Conj, Memory};
use std::alloc::Global;

/// From a node to one above it.
#[derive(Clone, Copy)]
struct Edge {
    lower: u32,
    higher: u32,
}

/// What implications tell: each atom on the left is below each on the right. The nodes are the atoms, by number, and then one for each
/// implication with more than one atom on both sides, which stands between the two: so the edges are no more than the atoms of the
/// implications.
#[derive(Drop)]
pub(crate) struct ToldHierarchy {
    pub(crate) nodes: u32,
    /// For each node how many edges go up from those before it.
    starts: Vec<usize>,
    /// The nodes above the first node, those above the second, and so on.
    higher: Vec<u32>,
}

impl ToldHierarchy {
    /// The graph of these implications. Linear in the atoms and in the implications.
    pub(crate) fn of(
        alloc: Global,
        atoms: u32,
        implications: &[Conj],
    ) -> Result<ToldHierarchy, Memory> {
        let mut nodes = atoms;
        let mut edges = Vec::new(alloc);
        for implication in implications {
            let left = implication.left.items();
            let right = implication.right.items();
            if left.len() > 1 && right.len() > 1 {
                join(&mut edges, left, &[Atom(nodes)])?;
                join(&mut edges, &[Atom(nodes)], right)?;
                nodes = nodes.saturating_add(1);
            } else {
                join(&mut edges, left, right)?;
            }
        }
        let starts = starts(alloc, nodes, &edges)?;
        let higher = by_lower(alloc, &starts, &edges)?;
        Ok(ToldHierarchy {
            nodes,
            starts,
            higher,
        })
    }

    /// The nodes that edges go to from this one, in the order of the implications. Constant time.
    pub(crate) fn above(&self, node: u32) -> &[u32] {
        let node = node as usize;
        let start = number_at(&self.starts, node);
        let end = number_at(&self.starts, node.saturating_add(1));
        self.higher.get(start..end).unwrap_or(&[])
    }

    /// How many steps a walk over all nodes takes: one along each edge, and one away from each node. Constant time.
    pub(crate) fn steps(&self) -> usize {
        self.higher.len().saturating_add(self.nodes as usize)
    }
}

/// An edge from each of the left to each of the right. Linear in the edges.
fn join(edges: &mut Vec<Edge>, left: &[Atom], right: &[Atom]) -> Result<(), Memory> {
    for lower in left {
        for higher in right {
            edges.push(Edge {
                lower: lower.0,
                higher: higher.0,
            })?;
        }
    }
    Ok(())
}

/// For each node, and for the end, how many edges go up from the nodes before it. Linear in the nodes and the edges.
fn starts(alloc: Global, nodes: u32, edges: &[Edge]) -> Result<Vec<usize>, Memory> {
    let mut starts = vec![in alloc; 0usize; (nodes as usize).saturating_add(1)]?;
    for edge in edges {
        if let Some(count) = starts.get_mut(edge.lower as usize) {
            *count = count.saturating_add(1);
        }
    }
    let mut before = 0usize;
    for start in starts.iter_mut() {
        let count = *start;
        *start = before;
        before = before.saturating_add(count);
    }
    Ok(starts)
}

/// The higher nodes of the edges, by their lower nodes, and of one lower node in the order of the edges. Linear in the nodes and the edges.
fn by_lower(alloc: Global, starts: &Vec<usize>, edges: &[Edge]) -> Result<Vec<u32>, Memory> {
    let mut next = starts.clone()?;
    let mut higher = vec![in alloc; 0u32; edges.len()]?;
    for edge in edges {
        if let Some(place) = next.get_mut(edge.lower as usize) {
            if let Some(slot) = higher.get_mut(*place) {
                *slot = edge.higher;
            }
            *place = place.saturating_add(1);
        }
    }
    Ok(higher)
}

/// The number at this place, and 0 where there is none. Constant time.
fn number_at(numbers: &[usize], place: usize) -> usize {
    match numbers.get(place) {
        Some(number) => *number,
        None => 0,
    }
}
