//! Generated documents against what is written out by hand.
//! What has many parts is let go of by `drop`, which the prover takes as one step.
use cd_base::Seq;
use cd_gen::make;
use cd_meaning::Axiom;
use std::alloc::Global;
use std::process::Abort;

const CLASSES: [&str; 8] = [
    "http://www.w3.org/2002/07/owl#Thing",
    "http://www.w3.org/2002/07/owl#Nothing",
    "urn:trial:D",
    "urn:trial:E",
    "urn:trial:A0",
    "urn:trial:B0",
    "urn:trial:C0",
    "urn:trial:U0",
];

const ROLES: [&str; 2] = ["urn:trial:R", "urn:trial:S"];

const AXIOMS: [&str; 7] = [
    "SubRole(0, 1)",
    "SubClass(SomeOf(1, Boxed { inner: Name(2) }), Name(3))",
    "SubClass(Name(4), Join(Items { items: [Name(5), Name(6)] }))",
    "SubClass(Name(5), Name(2))",
    "SubClass(Name(6), Name(2))",
    "SubClass(Name(7), Name(4))",
    "Disjoint(Seq { items: [Name(7), Name(2)] })",
];

fn are_names(names: &[Seq<u8>], expected: &[&str]) -> bool {
    let mut same = names.len() == expected.len();
    for (name, text) in names.iter().zip(expected.iter()) {
        same = same && name.items() == text.as_bytes();
    }
    same
}

/// Whether the axiom is shown like this.
fn is_shown(rt: &impl Abort, alloc: Global, axiom: &Axiom, text: &str) -> bool {
    let shown = format!(in alloc; "{:?}", axiom).expect(rt, "memory");
    let holds = shown.as_str() == text;
    drop(shown);
    holds
}

fn are_axioms(rt: &impl Abort, alloc: Global, axioms: &[Axiom], expected: &[&str]) -> bool {
    let mut same = axioms.len() == expected.len();
    for (stated, text) in axioms.iter().zip(expected.iter()) {
        same = same && is_shown(rt, alloc, stated, text);
    }
    same
}

#[test]
fn one_level_has_the_names_and_the_axioms_written_out(rt: HostRuntime) {
    let document = make(rt.alloc(), 1).expect(&rt, "memory");
    assert!(rt; are_names(document.classes.items(), &CLASSES));
    assert!(rt; are_names(document.roles.items(), &ROLES));
    assert!(rt; are_axioms(&rt, rt.alloc(), document.axioms.items(), &AXIOMS));
    drop(document);
}

#[test]
fn each_level_adds_four_classes_and_six_axioms(rt: HostRuntime) {
    let document = make(rt.alloc(), 3).expect(&rt, "memory");
    assert!(rt; document.classes.items().len() == 16);
    assert!(rt; document.roles.items().len() == 2);
    assert!(rt; document.axioms.items().len() == 19);
    drop(document);
}

#[test]
fn the_last_level_is_numbered_below_their_number(rt: HostRuntime) {
    let document = make(rt.alloc(), 20_000).expect(&rt, "memory");
    let name = document.classes.items().last().expect(&rt, "a class");
    assert!(rt; name.items() == "urn:trial:U19999".as_bytes());
    let axiom = document.axioms.items().last().expect(&rt, "an axiom");
    let text = "SubClass(Name(80000), SomeOf(0, Boxed { inner: Name(79996) }))";
    assert!(rt; is_shown(&rt, rt.alloc(), axiom, text));
    drop(document);
}
