//! Normal forms worked by hand, of an expression and of its complement, as text.
//! What has many parts is let go of by `drop`, which the prover takes as one step.
use crate::expressions::{all_of, join, meet, minus, names, some_of};
use cd_meaning::Expr;
use cd_nnf::{nnf, nnf_not};
use std::alloc::Global;
use std::process::Abort;

/// Whether the expression is shown like this.
fn shows(rt: &impl Abort, alloc: Global, e: &Expr, text: &str) -> bool {
    let shown = format!(in alloc; "{:?}", e).expect(rt, "memory");
    let holds = shown.as_str() == text;
    drop(shown);
    holds
}

/// Whether these are the normal forms of an expression and of its complement.
fn has_forms(rt: &impl Abort, alloc: Global, e: Expr, plain: &str, negated: &str) -> bool {
    let first = nnf(alloc, &e).expect(rt, "memory");
    let second = nnf_not(alloc, &e).expect(rt, "memory");
    drop(e);
    let holds = shows(rt, alloc, &first, plain) && shows(rt, alloc, &second, negated);
    drop(first);
    drop(second);
    holds
}

#[test]
fn each_form_turns_over_under_a_complement(rt: HostRuntime) {
    let alloc = rt.alloc();
    let (plain, negated) = ("Name(2)", "Minus(Boxed { inner: Name(2) })");
    assert!(rt; has_forms(&rt, alloc, Expr::Name(2), plain, negated));
    let plain = "Meet(Items { items: [Name(2), Name(3)] })";
    let negated =
        "Join(Items { items: [Minus(Boxed { inner: Name(2) }), Minus(Boxed { inner: Name(3) })] })";
    let both = meet(names(&rt, alloc, &[2, 3]));
    assert!(rt; has_forms(&rt, alloc, both, plain, negated));
    let plain = "Join(Items { items: [Name(2), Name(3)] })";
    let negated =
        "Meet(Items { items: [Minus(Boxed { inner: Name(2) }), Minus(Boxed { inner: Name(3) })] })";
    let either = join(names(&rt, alloc, &[2, 3]));
    assert!(rt; has_forms(&rt, alloc, either, plain, negated));
    let plain = "SomeOf(4, Boxed { inner: Name(2) })";
    let negated = "AllOf(4, Boxed { inner: Minus(Boxed { inner: Name(2) }) })";
    let some = some_of(&rt, alloc, 4, Expr::Name(2));
    assert!(rt; has_forms(&rt, alloc, some, plain, negated));
    let plain = "AllOf(4, Boxed { inner: Name(2) })";
    let negated = "SomeOf(4, Boxed { inner: Minus(Boxed { inner: Name(2) }) })";
    let all = all_of(&rt, alloc, 4, Expr::Name(2));
    assert!(rt; has_forms(&rt, alloc, all, plain, negated));
}

/// There is an edge of role 1 to what is no 2, or has an edge of role 0 to what is a 3.
fn nested(rt: &impl Abort, alloc: Global) -> Expr {
    let mut parts = names(rt, alloc, &[2]);
    let last = all_of(rt, alloc, 0, minus(rt, alloc, Expr::Name(3)));
    parts.push(last).expect(rt, "memory");
    some_of(rt, alloc, 1, minus(rt, alloc, meet(parts)))
}

#[test]
fn complements_come_down_to_names(rt: HostRuntime) {
    let alloc = rt.alloc();
    let plain = "AllOf(0, Boxed { inner: Minus(Boxed { inner: Name(2) }) })";
    let negated = "SomeOf(0, Boxed { inner: Name(2) })";
    let none = minus(&rt, alloc, some_of(&rt, alloc, 0, Expr::Name(2)));
    assert!(rt; has_forms(&rt, alloc, none, plain, negated));
    let plain =
        "SomeOf(1, Boxed { inner: Join(Items { items: [Minus(Boxed { inner: Name(2) }), SomeOf(0, Boxed { inner: Name(3) })] }) })";
    let negated =
        "AllOf(1, Boxed { inner: Meet(Items { items: [Name(2), AllOf(0, Boxed { inner: Minus(Boxed { inner: Name(3) }) })] }) })";
    assert!(rt; has_forms(&rt, alloc, nested(&rt, alloc), plain, negated));
}

#[test]
fn two_complements_of_a_name_are_none(rt: HostRuntime) {
    let alloc = rt.alloc();
    let (name, other) = ("Name(2)", "Minus(Boxed { inner: Name(2) })");
    let once = minus(&rt, alloc, Expr::Name(2));
    assert!(rt; has_forms(&rt, alloc, once, other, name));
    let twice = minus(&rt, alloc, minus(&rt, alloc, Expr::Name(2)));
    assert!(rt; has_forms(&rt, alloc, twice, name, other));
    let thrice = minus(
        &rt,
        alloc,
        minus(&rt, alloc, minus(&rt, alloc, Expr::Name(2))),
    );
    assert!(rt; has_forms(&rt, alloc, thrice, other, name));
}
