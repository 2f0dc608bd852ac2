//! Small stores. Expected values are written by hand.
//! What has many parts is let go of by `drop`, which the prover takes as one step.
use cd_base::{Atom, Key, Lit, Role};
use cd_clause::{Clause, Elem};
use cd_store::{Added, Store};
use std::alloc::Global;
use std::process::Abort;

/// The clause of these atoms.
fn of_atoms(rt: &impl Abort, alloc: Global, atoms: &[u32]) -> Clause {
    let mut elems = Vec::new(alloc);
    for atom in atoms {
        elems.push(Elem::Plain(Atom(*atom))).expect(rt, "memory");
    }
    Clause::of(alloc, elems.as_slice()).expect(rt, "memory")
}

/// What adding the clause of these atoms comes to.
fn add(rt: &impl Abort, alloc: Global, store: &mut Store, atoms: &[u32]) -> Added {
    store
        .add(alloc, of_atoms(rt, alloc, atoms))
        .expect(rt, "memory")
}

/// Whether adding the clauses of these atoms in turn comes to this, and leaves these live, of so many that are stored.
fn comes_to(
    rt: &impl Abort,
    alloc: Global,
    steps: &[(&[u32], Added)],
    live: &[usize],
    stored: usize,
) -> bool {
    let mut store = Store::new(alloc);
    let mut holds = true;
    for (atoms, added) in steps {
        holds = add(rt, alloc, &mut store, atoms) == *added && holds;
    }
    holds = holds && store.live() == live && store.clauses().len() == stored;
    drop(store);
    holds
}

#[test]
fn what_adding_comes_to_is_told(rt: HostRuntime) {
    let alloc = rt.alloc();
    // A clause is stored unless a live one covers it.
    let steps: [(&[u32], Added); 2] = [(&[2, 3], Added::New(0)), (&[2, 3, 4], Added::Held(0))];
    assert!(rt; comes_to(&rt, alloc, &steps, &[0], 1));
    // What a new clause covers dies.
    let steps: [(&[u32], Added); 3] = [
        (&[2, 3], Added::New(0)),
        (&[2], Added::New(1)),
        (&[2, 3], Added::Held(1)),
    ];
    assert!(rt; comes_to(&rt, alloc, &steps, &[1], 2));
    // The least number of those that cover it is told.
    let steps: [(&[u32], Added); 3] = [
        (&[5], Added::New(0)),
        (&[7], Added::New(1)),
        (&[5, 7], Added::Held(0)),
    ];
    assert!(rt; comes_to(&rt, alloc, &steps, &[0, 1], 2));
    // The empty clause is live alone.
    let steps: [(&[u32], Added); 3] = [
        (&[5], Added::New(0)),
        (&[7], Added::New(1)),
        (&[], Added::New(2)),
    ];
    assert!(rt; comes_to(&rt, alloc, &steps, &[2], 3));
}

/// A store of four clauses: of 2 and 3, of 3 and 5, of 7, and of 4 and an edge to a 4.
fn four_clauses(rt: &impl Abort, alloc: Global) -> Store {
    let mut store = Store::new(alloc);
    add(rt, alloc, &mut store, &[2, 3]);
    add(rt, alloc, &mut store, &[3, 5]);
    add(rt, alloc, &mut store, &[7]);
    let edge = Elem::Exist(Role(0), Key::single(alloc, Atom(4)));
    let clause = Clause::of(alloc, &[Elem::Plain(Atom(4)), edge]).expect(rt, "memory");
    store.add(alloc, clause).expect(rt, "memory");
    store
}

#[test]
fn the_clauses_with_an_atom_or_an_existential_are_found(rt: HostRuntime) {
    let store = four_clauses(&rt, rt.alloc());
    let mut found = Vec::new(rt.alloc());
    store
        .push_with_atom(Atom(3), &mut found)
        .expect(&rt, "memory");
    assert!(rt; found.as_slice() == [0, 1].as_slice());
    store
        .push_with_existentials(&mut found)
        .expect(&rt, "memory");
    assert!(rt; found.as_slice() == [0, 1, 3].as_slice());
    let (ending, going_on) = store.with_atom(Atom(3));
    assert!(rt; ending == [0].as_slice() && going_on == [1].as_slice());
    drop(found);
    drop(store);
}

#[test]
fn the_clauses_with_one_existential_are_found(rt: HostRuntime) {
    let store = four_clauses(&rt, rt.alloc());
    let four = Key::single(rt.alloc(), Atom(4));
    let mut found = Vec::new(rt.alloc());
    store
        .push_with_existential(Role(1), &four, &mut found)
        .expect(&rt, "memory");
    assert!(rt; found.is_empty());
    store
        .push_with_existential(Role(0), &four, &mut found)
        .expect(&rt, "memory");
    assert!(rt; found.as_slice() == [3].as_slice());
    drop(found);
    drop(four);
    drop(store);
}

/// Whether each of the atoms has its number among these.
fn has_each(numbers: &[u64], atoms: &[u64]) -> bool {
    for atom in atoms {
        if !numbers.contains(atom) {
            return false;
        }
    }
    true
}

#[test]
fn the_atoms_of_a_store_are_numbered_unless_there_are_too_many(rt: HostRuntime) {
    let store = four_clauses(&rt, rt.alloc());
    let Some(numbers) = store.atom_numbers(rt.alloc(), 100).expect(&rt, "memory") else {
        panic!(rt; "there are few");
    };
    assert!(rt; has_each(numbers.as_slice(), &[2, 3, 4, 5, 7]));
    drop(numbers);
    drop(store);
}

#[test]
fn a_dead_clause_is_not_live(rt: HostRuntime) {
    let mut store = four_clauses(&rt, rt.alloc());
    add(&rt, rt.alloc(), &mut store, &[3]);
    assert!(rt; !store.is_live(0) && !store.is_live(1) && store.is_live(2) && store.is_live(4));
    drop(store);
}

/// The clause of an existential to what is in each of these atoms.
fn of_key(rt: &impl Abort, alloc: Global, first: u32, others: &[u32]) -> Clause {
    let mut key = Key::single(alloc, Atom(first));
    for atom in others {
        let lit = Lit {
            atom: Atom(*atom),
            negated: false,
        };
        key = key.with(lit).expect(rt, "memory");
    }
    Clause::of(alloc, &[Elem::Exist(Role(0), key)]).expect(rt, "memory")
}

/// What adding the clause of an existential to what is in each of these atoms comes to.
fn add_key(rt: &impl Abort, alloc: Global, store: &mut Store, first: u32, others: &[u32]) -> Added {
    store
        .add(alloc, of_key(rt, alloc, first, others))
        .expect(rt, "memory")
}

#[test]
fn of_existentials_the_one_to_the_larger_key_lives(rt: HostRuntime) {
    let mut store = Store::new(rt.alloc());
    let steps: [(u32, &[u32], Added); 6] = [
        (3, &[], Added::New(0)),
        (5, &[7], Added::New(1)),
        (2, &[3, 4], Added::New(2)),
        (4, &[], Added::Held(2)),
        (2, &[4], Added::Held(2)),
        (4, &[5], Added::New(3)),
    ];
    for (first, others, added) in steps {
        assert!(rt; add_key(&rt, rt.alloc(), &mut store, first, others) == added);
    }
    assert!(rt; store.live() == [1, 2, 3].as_slice());
    drop(store);
}

/// A clause that was stored, and whether it is live.
#[derive(Debug, Drop)]
struct Scanned {
    clause: Clause,
    is_live: bool,
}

/// One of eight atoms, and of eight existentials of two roles to keys of one literal or two.
fn elem(rt: &impl Abort, alloc: Global, number: u32) -> Elem {
    let n = number % 16;
    if n < 8 {
        return Elem::Plain(Atom(n));
    }
    let lit = Lit {
        atom: Atom(n / 2 % 2),
        negated: n < 12,
    };
    let key = Key::single(alloc, Atom(n / 4 % 2));
    Elem::Exist(Role(n % 2), key.with(lit).expect(rt, "memory"))
}

/// Three elements first, then two, then one, and none from 120 on.
fn shape(rt: &impl Abort, alloc: Global, step: u32) -> Clause {
    let n = step % 1_000;
    let mut elems = Vec::new(alloc);
    if n < 120 {
        elems.push(elem(rt, alloc, n * 5 + 1)).expect(rt, "memory");
    }
    if n < 80 {
        elems.push(elem(rt, alloc, n * 7 + 3)).expect(rt, "memory");
    }
    if n < 40 {
        elems.push(elem(rt, alloc, n / 3)).expect(rt, "memory");
    }
    Clause::of(alloc, elems.as_slice()).expect(rt, "memory")
}

/// The first live clause that covers this one.
fn scan(all: &[Scanned], clause: &Clause) -> Option<usize> {
    for i in 0..all.len() {
        let held = &all[i];
        if held.is_live && held.clause.covers(clause) {
            return Some(i);
        }
    }
    None
}

/// Makes each clause dead that this one covers.
fn kill(all: &mut [Scanned], clause: &Clause) {
    for held in all.iter_mut() {
        if clause.covers(&held.clause) {
            held.is_live = false;
        }
    }
}

/// What adding the clause comes to, by a plain scan.
fn add_by_scan(rt: &impl Abort, all: &mut Vec<Scanned>, clause: Clause) -> Added {
    if let Some(i) = scan(all, &clause) {
        return Added::Held(i);
    }
    let number = all.len();
    kill(all, &clause);
    all.push(Scanned {
        clause,
        is_live: true,
    })
    .expect(rt, "memory");
    Added::New(number)
}

/// Whether these are the numbers of the live ones.
fn are_live(rt: &impl Abort, alloc: Global, all: &[Scanned], numbers: &[usize]) -> bool {
    let mut live = Vec::new(alloc);
    for i in 0..all.len() {
        if all[i].is_live {
            live.push(i).expect(rt, "memory");
        }
    }
    live.as_slice() == numbers
}

/// Whether the store and the scan come to the same.
fn is_same(
    rt: &impl Abort,
    alloc: Global,
    store: &mut Store,
    all: &mut Vec<Scanned>,
    step: u32,
) -> bool {
    let added = store
        .add(alloc, shape(rt, alloc, step))
        .expect(rt, "memory");
    let wanted = add_by_scan(rt, all, shape(rt, alloc, step));
    added == wanted && are_live(rt, alloc, all, store.live())
}

#[test]
fn what_is_found_by_elements_is_what_a_plain_scan_finds(rt: HostRuntime) {
    let mut store = Store::new(rt.alloc());
    let mut all = Vec::new(rt.alloc());
    for step in 0..121u32 {
        assert!(rt;
            is_same(&rt, rt.alloc(), &mut store, &mut all, step),
            "at {step}"
        );
    }
    assert_eq!(rt; store.live().len(), 1);
    drop(all);
    drop(store);
}
