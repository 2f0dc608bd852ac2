//! The rules over the hand-made index, with small keys and clauses. Expected values are written by hand.
//! What has many parts is let go of by `drop`, which the prover takes as one step.
ghost use Rattle.std.specs.Prelude.{◌≡◌, ◌<◌, length};

use crate::sample::hand_made;
use cd_base::{Atom, Key, Role};
use cd_clause::{Clause, Elem};
use cd_index::Index;
use cd_rules::{BackFact, DeadFact, SureFact, on_back, on_clause, on_dead, on_key, on_sure};
use std::alloc::Global;
use std::process::Abort;

/// The clause of an existential of role 0 to the class 4, alone in a list.
fn edge_to_four(rt: &impl Abort, alloc: Global) -> Vec<Clause>
    ensures { length result.items ≡ 1 }
{
    let edge = Elem::Exist(Role(0), Key::single(alloc, Atom(4)));
    let clause = Clause::of(alloc, &[edge]).expect(rt, "memory");
    vec![in alloc; clause].expect(rt, "memory")
}

/// The clause of the class 2, alone in a list.
fn atom_two(rt: &impl Abort, alloc: Global) -> Vec<Clause>
    ensures { length result.items ≡ 1 }
{
    let clause = Clause::of(alloc, &[Elem::Plain(Atom(2))]).expect(rt, "memory");
    vec![in alloc; clause].expect(rt, "memory")
}

/// What the key of the class 2 gives.
fn from_key(rt: &impl Abort, alloc: Global, index: &Index) -> Vec<Clause> {
    let mut out = Vec::new(alloc);
    on_key(alloc, index, &Key::single(alloc, Atom(2)), &mut out).expect(rt, "memory");
    out
}

/// What the clause of the class 2 gives in the context of that class.
fn from_clause(rt: &impl Abort, alloc: Global, index: &Index, clauses: &[Clause]) -> Vec<Clause>
    requires { 0 < length clauses.now }
{
    let key = Key::single(alloc, Atom(2));
    let mut out = Vec::new(alloc);
    on_clause(
        alloc,
        index,
        &key,
        clauses,
        &[0],
        0,
        &[],
        &[],
        &[],
        &mut out,
    )
    .expect(rt, "memory");
    out
}

/// What a back gives: that the context of the class 4 has the class 4.
fn from_back(rt: &impl Abort, alloc: Global, index: &Index, clauses: &[Clause]) -> Vec<Clause>
    requires { 0 < length clauses.now }
{
    let back = BackFact {
        role: Role(0),
        key: Key::single(alloc, Atom(4)),
        atom: Atom(4),
    };
    let mut out = Vec::new(alloc);
    on_back(index, clauses, &[0], &back, &mut out).expect(rt, "memory");
    out
}

/// What a sure gives: that the context of the class 4 has the clause of the class 4 alone.
fn from_sure(rt: &impl Abort, alloc: Global, index: &Index, clauses: &[Clause]) -> Vec<Clause>
    requires { 0 < length clauses.now }
{
    let sure = SureFact {
        role: Role(0),
        key: Key::single(alloc, Atom(4)),
        atom: Atom(4),
    };
    let mut out = Vec::new(alloc);
    on_sure(index, clauses, &[0], &sure, &mut out).expect(rt, "memory");
    out
}

/// What a dead gives: that the context of the class 4 has the empty clause.
fn from_dead(rt: &impl Abort, alloc: Global, index: &Index, clauses: &[Clause]) -> Vec<Clause>
    requires { 0 < length clauses.now }
{
    let dead = DeadFact {
        role: Role(0),
        key: Key::single(alloc, Atom(4)),
    };
    let mut out = Vec::new(alloc);
    on_dead(index, clauses, &[0], &dead, &mut out).expect(rt, "memory");
    out
}

/// Whether the clauses are written like this.
fn are_written(rt: &impl Abort, alloc: Global, clauses: &[Clause], text: &str) -> bool {
    let written = format!(in alloc; "{:?}", clauses).expect(rt, "memory");
    written.as_str() == text
}

#[test]
fn a_key_gives_its_atoms_and_what_always_holds(rt: HostRuntime) {
    let index = hand_made(&rt, rt.alloc());
    let out = from_key(&rt, rt.alloc(), &index);
    let text = "[Clause { elems: [Plain(Atom(2))] }, Clause { elems: [Plain(Atom(0))] }]";
    assert!(rt; are_written(&rt, rt.alloc(), &out, text));
    drop(index);
}

#[test]
fn a_premise_gives_its_edge_and_what_its_atom_implies(rt: HostRuntime) {
    let index = hand_made(&rt, rt.alloc());
    let out = from_clause(&rt, rt.alloc(), &index, &atom_two(&rt, rt.alloc()));
    let text =
        "[Clause { elems: [Exist(Role(0), Key { lits: [Lit { atom: Atom(4), negated: false }] })] }, Clause { elems: [Plain(Atom(3))] }]";
    assert!(rt; are_written(&rt, rt.alloc(), &out, text));
    drop(index);
}

#[test]
fn a_back_keeps_the_existential_with_the_atom_negated(rt: HostRuntime) {
    let index = hand_made(&rt, rt.alloc());
    let out = from_back(&rt, rt.alloc(), &index, &edge_to_four(&rt, rt.alloc()));
    let text =
        "[Clause { elems: [Plain(Atom(5)), Exist(Role(0), Key { lits: [Lit { atom: Atom(4), negated: false }, Lit { atom: Atom(4), negated: true }] })] }]";
    assert!(rt; are_written(&rt, rt.alloc(), &out, text));
    drop(index);
}

#[test]
fn a_sure_needs_no_case(rt: HostRuntime) {
    let index = hand_made(&rt, rt.alloc());
    let out = from_sure(&rt, rt.alloc(), &index, &edge_to_four(&rt, rt.alloc()));
    assert!(rt;
        are_written(
            &rt,
            rt.alloc(),
            &out,
            "[Clause { elems: [Plain(Atom(5))] }]"
        )
    );
    drop(index);
}

#[test]
fn a_dead_gives_the_rest_of_the_clause(rt: HostRuntime) {
    let index = hand_made(&rt, rt.alloc());
    let out = from_dead(&rt, rt.alloc(), &index, &edge_to_four(&rt, rt.alloc()));
    assert!(rt; are_written(&rt, rt.alloc(), &out, "[Clause { elems: [] }]"));
    drop(index);
}
