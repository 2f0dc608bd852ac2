//! Two elements. Expected values are written by hand.
//! What has many parts is let go of by `drop`, which the prover takes as one step.
ghost use Rattle.std.specs.Prelude.{◌≡◌};

use crate::expressions::{all_of, join, meet, minus, names, some_of};
use cd_base::Seq;
use cd_meaning::{Axiom, Edge, Expr, Interpretation, Member, NOTHING, THING, holds, is_in};
use std::alloc::Global;
use std::process::Abort;

const A: u32 = 2;

const B: u32 = 3;

const C: u32 = 4;
/// A class, and also a role, of which the interpretation lists nothing.
const EMPTY: u32 = 5;

/// Two elements. A and C have the first, B has the second. Role 0 leads from the first element to both; roles 1 and 2 lead from the
/// first to itself. That owl:Nothing is listed with the first element changes nothing.
fn two_elements(rt: &impl Abort, alloc: Global) -> Interpretation
    ensures { result.size ≡ 2 }
{
    let classes = [pair(A, 0), pair(C, 0), pair(B, 1), pair(NOTHING, 0)];
    let roles = [edge(0, 0), edge(0, 1), edge(1, 0), edge(2, 0)];
    Interpretation {
        size: 2,
        classes: Seq::of(Vec::from_array(alloc, classes).expect(rt, "memory")),
        roles: Seq::of(Vec::from_array(alloc, roles).expect(rt, "memory")),
    }
}

fn pair(class: u32, element: u32) -> Member
    ensures { result.element ≡ element }
{
    Member { class, element }
}

fn edge(role: u32, target: u32) -> Edge
    ensures source { result.source ≡ 0 }
    ensures target { result.target ≡ target }
{
    Edge {
        role,
        source: 0,
        target,
    }
}

/// Whether the first element is in the expression, and whether the second is.
fn members(i: &Interpretation, e: &Expr) -> (bool, bool)
    requires { i.now.size ≡ 2 }
{
    (is_in(i, 0, e), is_in(i, 1, e))
}

/// Which of the two elements are in the expression.
fn members_of(rt: &impl Abort, alloc: Global, e: Expr) -> (bool, bool) {
    let i = two_elements(rt, alloc);
    let found = members(&i, &e);
    drop(e);
    drop(i);
    found
}

#[test]
fn each_form_of_expression_has_its_members(rt: HostRuntime) {
    let alloc = rt.alloc();
    // Owl:Thing has all elements, and owl:Nothing has none.
    assert!(rt; members_of(&rt, alloc, Expr::Name(THING)) == (true, true));
    assert!(rt; members_of(&rt, alloc, Expr::Name(NOTHING)) == (false, false));
    // A class has the elements that are listed.
    assert!(rt; members_of(&rt, alloc, Expr::Name(A)) == (true, false));
    assert!(rt; members_of(&rt, alloc, Expr::Name(EMPTY)) == (false, false));
    // A complement has the other elements.
    let other = minus(&rt, alloc, Expr::Name(A));
    assert!(rt; members_of(&rt, alloc, other) == (false, true));
    // An intersection has what all have, and a union what some have.
    let both = meet(names(&rt, alloc, &[THING, A]));
    assert!(rt; members_of(&rt, alloc, both) == (true, false));
    let either = join(names(&rt, alloc, &[A, B]));
    assert!(rt; members_of(&rt, alloc, either) == (true, true));
}

/// What has an edge of the role to a member of the class, and what has edges of the role to such members alone.
fn edges(rt: &impl Abort, alloc: Global, role: u32, class: u32) -> ((bool, bool), (bool, bool)) {
    let some = some_of(rt, alloc, role, Expr::Name(class));
    let all = all_of(rt, alloc, role, Expr::Name(class));
    (members_of(rt, alloc, some), members_of(rt, alloc, all))
}

#[test]
fn an_existential_and_a_universal_have_what_a_role_leads_from(rt: HostRuntime) {
    let alloc = rt.alloc();
    assert!(rt; edges(&rt, alloc, 0, B) == ((true, false), (false, true)));
    assert!(rt; edges(&rt, alloc, 1, B) == ((false, false), (false, true)));
    assert!(rt; edges(&rt, alloc, 1, A) == ((true, false), (true, true)));
}

/// Whether an axiom holds in the two elements.
fn is_true(rt: &impl Abort, alloc: Global, axiom: Axiom) -> bool {
    let i = two_elements(rt, alloc);
    let found = holds(&i, &axiom);
    drop(axiom);
    drop(i);
    found
}

/// Whether the first class is below the second.
fn sub_class(rt: &impl Abort, alloc: Global, lower: u32, upper: u32) -> bool {
    is_true(
        rt,
        alloc,
        Axiom::SubClass(Expr::Name(lower), Expr::Name(upper)),
    )
}

/// Whether the classes are the same, and whether they are disjoint.
fn relate(rt: &impl Abort, alloc: Global, classes: &[u32]) -> (bool, bool) {
    let same = Axiom::SameClasses(Seq::of(names(rt, alloc, classes)));
    let disjoint = Axiom::Disjoint(Seq::of(names(rt, alloc, classes)));
    (is_true(rt, alloc, same), is_true(rt, alloc, disjoint))
}

#[test]
fn axioms_on_classes_hold_by_the_members(rt: HostRuntime) {
    let alloc = rt.alloc();
    // A class is below another where it has no element that the other lacks.
    assert!(rt; sub_class(&rt, alloc, A, C));
    assert!(rt; !sub_class(&rt, alloc, THING, A));
    // Classes are the same where all have the same elements, and disjoint where no two share an element.
    assert!(rt; relate(&rt, alloc, &[A, C, A]) == (true, false));
    assert!(rt; relate(&rt, alloc, &[A, C, EMPTY]) == (false, false));
    assert!(rt; relate(&rt, alloc, &[A, B, A]) == (false, true));
    assert!(rt; relate(&rt, alloc, &[A, B, C]) == (false, false));
}

/// A and ObjectComplementOf(ObjectComplementOf(A)) have the same elements, but are two trees.
fn a_and_its_double_complement(rt: &impl Abort, alloc: Global) -> Vec<Expr> {
    let mut operands = names(rt, alloc, &[A]);
    let twice = minus(rt, alloc, minus(rt, alloc, Expr::Name(A)));
    operands.push(twice).expect(rt, "memory");
    operands
}

/// Whether the class is the disjoint union of these.
fn disjoint_union(rt: &impl Abort, alloc: Global, class: u32, classes: &[u32]) -> bool {
    let parts = Seq::of(names(rt, alloc, classes));
    is_true(rt, alloc, Axiom::DisjointUnion(class, parts))
}

#[test]
fn disjointness_is_of_elements_and_not_of_trees(rt: HostRuntime) {
    let alloc = rt.alloc();
    let operands = a_and_its_double_complement(&rt, alloc);
    assert!(rt; !is_true(&rt, alloc, Axiom::Disjoint(Seq::of(operands))));
    // A disjoint union has what its disjoint parts have.
    assert!(rt; disjoint_union(&rt, alloc, THING, &[A, B]));
    assert!(rt; disjoint_union(&rt, alloc, A, &[A, EMPTY]));
    // Parts that overlap or have more are none.
    assert!(rt; !disjoint_union(&rt, alloc, THING, &[A, B, C]));
    assert!(rt; !disjoint_union(&rt, alloc, A, &[A, B]));
}

/// Whether two roles lead to the same.
fn same_roles(rt: &impl Abort, alloc: Global, first: u32, second: u32) -> bool {
    let roles = vec![in alloc; first, second].expect(rt, "memory");
    is_true(rt, alloc, Axiom::SameRoles(Seq::of(roles)))
}

/// Whether the class has all that the role leads from, and whether it has all that the role leads to.
fn ends(rt: &impl Abort, alloc: Global, role: u32, class: u32) -> (bool, bool) {
    let domain = Axiom::Domain(role, Expr::Name(class));
    let range = Axiom::Range(role, Expr::Name(class));
    (is_true(rt, alloc, domain), is_true(rt, alloc, range))
}

#[test]
fn axioms_on_roles_hold_by_the_edges(rt: HostRuntime) {
    let alloc = rt.alloc();
    // A role is below another where it leads nowhere that the other does not.
    assert!(rt; is_true(&rt, alloc, Axiom::SubRole(1, 0)));
    assert!(rt; !is_true(&rt, alloc, Axiom::SubRole(0, 1)));
    assert!(rt; same_roles(&rt, alloc, 1, 2));
    assert!(rt; !same_roles(&rt, alloc, 1, 0));
    assert!(rt; ends(&rt, alloc, 0, A) == (true, false));
    assert!(rt; ends(&rt, alloc, 0, B) == (false, false));
    assert!(rt; ends(&rt, alloc, 1, A) == (true, true));
}
