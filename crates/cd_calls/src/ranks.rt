//! The ranks of a few atoms, by implications that tell what is above them. Expected values are written by hand.
//! What has many parts is let go of by `drop`, which the prover takes as one step.
use cd_base::{Atom, Conj, Seq};
use cd_ranks::told_ranks;
use std::alloc::Global;
use std::process::Abort;

/// The atoms on the left of an implication, and those on its right.
type Sides<'a> = (&'a [u32], &'a [u32]);

fn atoms(rt: &impl Abort, alloc: Global, numbers: &[u32]) -> Seq<Atom> {
    let mut atoms = Vec::new(alloc);
    for number in numbers {
        atoms.push(Atom(*number)).expect(rt, "memory");
    }
    Seq::of(atoms)
}

fn implications(rt: &impl Abort, alloc: Global, told: &[Sides<'_>]) -> Vec<Conj> {
    let mut implications = Vec::new(alloc);
    for (left, right) in told {
        let implication = Conj {
            left: atoms(rt, alloc, left),
            right: atoms(rt, alloc, right),
        };
        implications.push(implication).expect(rt, "memory");
    }
    implications
}

/// Whether so many atoms, of which so many are classes, have these ranks where that is told.
fn has_ranks(
    rt: &impl Abort,
    alloc: Global,
    atoms: u32,
    classes: u32,
    told: &[Sides<'_>],
    wanted: &[u32],
) -> bool {
    let n1 = implications(rt, alloc, told);
    let ranks = told_ranks(alloc, atoms, classes, n1.as_slice()).expect(rt, "memory");
    let holds = ranks.as_slice() == wanted;
    drop(ranks);
    drop(n1);
    holds
}

#[test]
fn the_longer_the_way_up_the_greater_the_rank(rt: HostRuntime) {
    let table: [(u32, &[Sides<'_>], &[u32]); 6] = [
        // Where nothing tells classes apart, the smaller number has the greater rank.
        (4, &[], &[3, 2, 1, 0]),
        (4, &[(&[], &[0]), (&[1], &[])], &[3, 2, 1, 0]),
        // A chain, with a shorter way beside it.
        (
            5,
            &[(&[2], &[4]), (&[2], &[3]), (&[3], &[4])],
            &[2, 1, 4, 3, 0],
        ),
        // Many on one side.
        (5, &[(&[3, 4], &[2])], &[2, 1, 0, 4, 3]),
        (5, &[(&[2], &[3, 4])], &[3, 2, 4, 1, 0]),
        // Many on both sides.
        (6, &[(&[2, 3], &[4, 5])], &[3, 2, 5, 4, 1, 0]),
    ];
    for (row, (classes, told, wanted)) in table.iter().enumerate() {
        assert!(rt;
            has_ranks(&rt, rt.alloc(), *classes, *classes, told, wanted),
            "row {row}"
        );
    }
}

#[test]
fn a_cycle_is_cut_where_it_closes(rt: HostRuntime) {
    let round: [Sides<'_>; 3] = [(&[2], &[3]), (&[3], &[4]), (&[4], &[2])];
    assert!(rt; has_ranks(&rt, rt.alloc(), 5, 5, &round, &[2, 1, 4, 3, 0]));
    let own: [Sides<'_>; 1] = [(&[0], &[0])];
    assert!(rt; has_ranks(&rt, rt.alloc(), 2, 2, &own, &[1, 0]));
}

#[test]
fn other_atoms_are_above_the_classes_by_number(rt: HostRuntime) {
    // The way up from 2 goes over 4, which is no class.
    let told: [Sides<'_>; 3] = [(&[2], &[4]), (&[4], &[3]), (&[5], &[2])];
    assert!(rt; has_ranks(&rt, rt.alloc(), 6, 4, &told, &[2, 1, 3, 0, 4, 5]));
    // What is told of atoms out of range is left out.
    let none: [Sides<'_>; 2] = [(&[1], &[7]), (&[7], &[1])];
    assert!(rt; has_ranks(&rt, rt.alloc(), 2, 2, &none, &[1, 0]));
}
