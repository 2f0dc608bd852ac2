//! Small clauses. Expected values are written by hand.
//! What elements are made of stands in tables, and elements are made of it in one place. What has many parts is let go of by `drop`, which
//! the prover takes as one step.
use cd_base::{Atom, Key, Lit, Normal, Role, Seq};
use cd_clause::{Clause, Elem, greatest};
use std::alloc::Global;
use std::process::Abort;

/// What an element is made of: of an atom, `(None, atom)`, and of an edge its role and the atom that it leads to, `(Some(role), atom)`.
type Part = (Option<u32>, u32);

fn elem(alloc: Global, (role, atom): Part) -> Elem {
    match role {
        Some(role) => Elem::Exist(Role(role), Key::single(alloc, Atom(atom))),
        None => Elem::Plain(Atom(atom)),
    }
}

/// The clause of these elements.
fn clause(rt: &impl Abort, alloc: Global, parts: &[Part]) -> Clause {
    let mut elems = Vec::new(alloc);
    for part in parts {
        elems.push(elem(alloc, *part)).expect(rt, "memory");
    }
    let clause = Clause::of(alloc, elems.as_slice()).expect(rt, "memory");
    drop(elems);
    clause
}

/// Whether the element is made of this.
fn is_of(elem: &Elem, (role, atom): Part) -> bool {
    match elem {
        Elem::Plain(found) => role == None && *found == Atom(atom),
        Elem::Exist(found, key) => {
            let lits = key.lits();
            role == Some(found.0)
                && lits.len() == 1
                && lits[0].atom == Atom(atom)
                && !lits[0].negated
        }
    }
}

/// Whether the clause has these elements in this order.
fn are(clause: &Clause, wanted: &[Part]) -> bool {
    let elems = clause.elems();
    elems.len() == wanted.len()
        && elems
            .iter()
            .zip(wanted)
            .all(|(elem, part)| is_of(elem, *part))
}

#[test]
fn two_clauses_join(rt: HostRuntime) {
    let left = clause(&rt, rt.alloc(), &[(None, 2), (None, 3)]);
    let right = clause(&rt, rt.alloc(), &[(None, 4)]);
    let both = left.join(&right).expect(&rt, "memory");
    assert!(rt; are(&both, &[(None, 2), (None, 3), (None, 4)]));
    drop(both);
    drop(right);
    drop(left);
}

#[test]
fn an_element_comes_once_and_goes(rt: HostRuntime) {
    let two = clause(&rt, rt.alloc(), &[(None, 3), (None, 4)]);
    let same = two.with(Elem::Plain(Atom(4))).expect(&rt, "memory");
    assert!(rt; are(&same, &[(None, 3), (None, 4)]));
    drop(same);
    let three = two.with(Elem::Plain(Atom(2))).expect(&rt, "memory");
    assert!(rt; are(&three, &[(None, 2), (None, 3), (None, 4)]));
    assert!(rt; three.elems().len() == 3);
    let rest = three.without(0).expect(&rt, "memory");
    assert!(rt; are(&rest, &[(None, 3), (None, 4)]));
    drop(rest);
    drop(three);
    drop(two);
}

/// Whether a copy of the element is that element and not the edge of role 0 to a 4, and is made of the same.
fn is_copied(rt: &impl Abort, alloc: Global, part: Part) -> bool {
    let one = elem(alloc, part);
    let copy = one.copy().expect(rt, "memory");
    let other = elem(alloc, (Some(0), 4));
    let holds = copy.is_same(&one) && is_of(&copy, part) && !copy.is_same(&other);
    drop(other);
    drop(copy);
    drop(one);
    holds
}

#[test]
fn a_copy_of_an_element_is_the_same_element(rt: HostRuntime) {
    for part in [(None, 0), (None, 4), (Some(1), 4)] {
        assert!(rt; is_copied(&rt, rt.alloc(), part));
    }
}

#[test]
fn elements_stand_in_one_order_and_once_and_so_in_a_copy(rt: HostRuntime) {
    let given = [
        (Some(1), 4),
        (None, 3),
        (Some(0), 5),
        (None, 2),
        (Some(0), 4),
        (None, 3),
        (Some(1), 4),
    ];
    let wanted = [
        (None, 2),
        (None, 3),
        (Some(0), 4),
        (Some(0), 5),
        (Some(1), 4),
    ];
    let made = clause(&rt, rt.alloc(), &given);
    assert!(rt; are(&made, &wanted));
    let copy = made.copy().expect(&rt, "memory");
    assert!(rt; are(&copy, &wanted));
    drop(copy);
    drop(made);
}

/// Whether the clause of these elements covers that of those.
fn is_covering(rt: &impl Abort, alloc: Global, left: &[Part], right: &[Part]) -> bool {
    let left = clause(rt, alloc, left);
    let right = clause(rt, alloc, right);
    let found = left.covers(&right);
    drop(right);
    drop(left);
    found
}

#[test]
fn a_clause_covers_another_exactly_where_that_has_all_its_elements_or_weaker_ones(rt: HostRuntime) {
    let table: [(&[Part], &[Part], bool); 10] = [
        (
            &[(None, 1), (None, 1)],
            &[(None, 1), (None, 2), (None, 3)],
            true,
        ),
        (
            &[(None, 1), (None, 2)],
            &[(None, 1), (None, 2), (None, 3)],
            true,
        ),
        (
            &[(None, 2), (None, 3)],
            &[(None, 1), (None, 1), (None, 2)],
            false,
        ),
        (
            &[(None, 2), (None, 2)],
            &[(None, 1), (None, 1), (None, 2)],
            true,
        ),
        (
            &[(None, 1), (None, 3)],
            &[(None, 1), (None, 2), (None, 4)],
            false,
        ),
        (
            &[(None, 1), (None, 4)],
            &[(None, 1), (None, 2), (None, 3)],
            false,
        ),
        // The empty clause covers each.
        (&[], &[(None, 1)], true),
        (&[(None, 1)], &[], false),
        // An existential covers no clause of atoms.
        (&[(Some(0), 1)], &[(None, 1)], false),
        (&[(Some(0), 1)], &[(None, 1), (Some(0), 1)], true),
    ];
    for (row, (left, right, covers)) in table.iter().enumerate() {
        assert!(rt;
            is_covering(&rt, rt.alloc(), left, right) == *covers,
            "row {row}"
        );
    }
}

/// Four classes of the document, two atoms beside them, with these ranks, and no axioms.
fn six_atoms(rt: &impl Abort, alloc: Global, ranks: &[u32]) -> Normal {
    let named = vec![in alloc; true, true, true, true, false, false].expect(rt, "memory");
    Normal {
        atoms: 6,
        named: Seq::of(named),
        ranks: Seq::of(ranks.to_vec(alloc).expect(rt, "memory")),
        roles: 2,
        n1: Seq::of(Vec::new(alloc)),
        n2: Seq::of(Vec::new(alloc)),
        n3: Seq::of(Vec::new(alloc)),
        n4: Seq::of(Vec::new(alloc)),
        n5: Seq::of(Vec::new(alloc)),
    }
}

/// Whether the greatest element of the clause, where the atoms have these ranks, is the one at this place.
fn has_greatest(
    rt: &impl Abort,
    alloc: Global,
    ranks: &[u32],
    clause: &Clause,
    place: Option<usize>,
) -> bool {
    let normal = six_atoms(rt, alloc, ranks);
    let holds = greatest(clause, &normal) == place;
    drop(normal);
    holds
}

#[test]
fn what_is_greatest_in_the_order_of_the_calculus_is_eligible(rt: HostRuntime) {
    let table: [(&[u32], &[Part], Option<usize>); 10] = [
        // Of atoms the rank decides, and then the number.
        (&[0, 0, 7, 3, 1, 1], &[(None, 2), (None, 3)], Some(0)),
        (
            &[0, 0, 3, 7, 1, 1],
            &[(None, 2), (None, 3), (None, 4)],
            Some(1),
        ),
        (&[0, 0, 5, 5, 1, 1], &[(None, 2), (None, 3)], Some(1)),
        (&[], &[(None, 2), (None, 4)], Some(1)),
        // An atom that no rank is told of has rank 0.
        (&[0, 0, 1], &[(None, 2), (None, 5)], Some(0)),
        // An existential is above each atom.
        (
            &[9, 0, 9, 9, 9, 9],
            &[(None, 2), (None, 4), (Some(0), 1)],
            Some(2),
        ),
        // Of existentials the role decides, and then the key, by the numbers of its atoms.
        (&[0, 0, 9], &[(Some(0), 2), (Some(1), 1)], Some(1)),
        (&[0, 9, 0], &[(Some(0), 1), (Some(0), 2)], Some(1)),
        (&[], &[(Some(0), 1)], Some(0)),
        // The empty clause has none.
        (&[], &[], None),
    ];
    for (row, (ranks, parts, place)) in table.iter().enumerate() {
        let made = clause(&rt, rt.alloc(), parts);
        assert!(rt;
            has_greatest(&rt, rt.alloc(), ranks, &made, *place),
            "row {row}"
        );
        drop(made);
    }
}

/// Whether the last element of the clause is made of this.
fn ends_in(clause: &Clause, part: Part) -> bool {
    match clause.elems() {
        [.., last] => is_of(last, part),
        [] => false,
    }
}

/// The existential to the key of 1, and to that of 1 and 2.
fn two_keys(rt: &impl Abort, alloc: Global) -> Clause {
    let mut elems = Vec::new(alloc);
    let small = Key::single(alloc, Atom(1));
    let two = Lit {
        atom: Atom(2),
        negated: false,
    };
    let large = small.with(two).expect(rt, "memory");
    elems.push(Elem::Exist(Role(0), small)).expect(rt, "memory");
    elems.push(Elem::Exist(Role(0), large)).expect(rt, "memory");
    let clause = Clause::of(alloc, elems.as_slice()).expect(rt, "memory");
    drop(elems);
    clause
}

#[test]
fn the_existential_to_a_larger_key_is_lower(rt: HostRuntime) {
    let clause = two_keys(&rt, rt.alloc());
    assert!(rt; clause.elems().len() == 2);
    assert!(rt; ends_in(&clause, (Some(0), 1)));
    assert!(rt; has_greatest(&rt, rt.alloc(), &[], &clause, Some(1)));
    drop(clause);
}
