//! Whether an axiom holds in an interpretation.
ghost use Rattle.std.specs.Prelude.{◌≡◌, ◌<◌, ◌↔◌, IsTrue, All};
ghost use Rattle.cd_meaning.specs.Membership.{member};
ghost use Rattle.cd_meaning.specs.Truth.{has_edge, IsDomain, IsRange, IsDisjointUnion, IsBelow, HasSameMembers, AreDisjoint, IsDistinctlyApart, IsSubRole, HasSameEdges, EveryTwo, Holds};

use crate::expression::{Axiom, Expr};
use crate::interpretation::{Edge, Interpretation};
use crate::membership::{class_has, is_in, is_in_one};
use crate::trees::same_tree;

/// Whether an axiom holds in an interpretation, for trying the definitions on interpretations. Direct Semantics, sections 2.3.1 and
/// 2.3.2.
///
/// An axiom on two classes calls `is_in` for each element, one on a domain or a range for each edge, and one on two roles goes over all
/// edges for each edge. `SameClasses`, `Disjoint`, `DisjointUnion` and `SameRoles` compare every two operands, each with itself too and
/// each two both ways round: their time is quadratic in the operands.
pub fn holds(i: &Interpretation, stated: &Axiom) -> bool
    ensures { IsTrue result ↔ Holds i.now stated.now }
{
    match stated {
        Axiom::SubClass(lower, upper) => is_below(i, lower, upper),
        Axiom::SameClasses(operands) => have_same_members(i, operands.items()),
        Axiom::Disjoint(operands) => are_pairwise_disjoint(i, operands.items()),
        Axiom::DisjointUnion(class, operands) => is_disjoint_union(i, *class, operands.items()),
        Axiom::SubRole(lower, upper) => is_sub_role(i, *lower, *upper),
        Axiom::SameRoles(roles) => have_same_edges(i, roles.items()),
        Axiom::Domain(role, class) => has_domain(i, *role, class),
        Axiom::Range(role, class) => has_range(i, *role, class),
    }
}

/// Calls `is_in` at most twice for each element.
fn is_below(i: &Interpretation, lower: &Expr, upper: &Expr) -> bool
    ensures { IsTrue result ↔ IsBelow i.now lower.now upper.now }
{
    for element in 0..i.size {
        if is_in(i, element, lower) && !is_in(i, element, upper) {
            return false;
        }
    }
    true
}

/// Quadratic in the operands, with `has_same_members` for every two.
fn have_same_members(i: &Interpretation, operands: &[Expr]) -> bool
    ensures { IsTrue result ↔ EveryTwo (HasSameMembers i.now) operands.now }
{
    for operand in operands {
        if !has_members_of_each(i, operand, operands) {
            return false;
        }
    }
    true
}

/// Calls `has_same_members` for each operand.
fn has_members_of_each(i: &Interpretation, first: &Expr, operands: &[Expr]) -> bool
    ensures { IsTrue result ↔ All (λ operand. HasSameMembers i.now first.now operand) operands.now }
{
    for operand in operands {
        if !has_same_members(i, first, operand) {
            return false;
        }
    }
    true
}

/// Calls `is_in` at most four times for each element.
fn has_same_members(i: &Interpretation, first: &Expr, second: &Expr) -> bool
    ensures { IsTrue result ↔ HasSameMembers i.now first.now second.now }
{
    is_below(i, first, second) && is_below(i, second, first)
}

/// Quadratic in the operands, with `is_distinctly_apart` for every two.
fn are_pairwise_disjoint(i: &Interpretation, operands: &[Expr]) -> bool
    ensures { IsTrue result ↔ EveryTwo (IsDistinctlyApart i.now) operands.now }
{
    for operand in operands {
        if !is_apart_from_each(i, operand, operands) {
            return false;
        }
    }
    true
}

/// Calls `is_distinctly_apart` for each operand.
fn is_apart_from_each(i: &Interpretation, first: &Expr, operands: &[Expr]) -> bool
    ensures { IsTrue result ↔ All (λ operand. IsDistinctlyApart i.now first.now operand)
        operands.now }
{
    for operand in operands {
        if !is_distinctly_apart(i, first, operand) {
            return false;
        }
    }
    true
}

/// Operands that are one tree count as one, as in a set. Linear in the smaller tree, and where they differ the time of `are_disjoint`.
fn is_distinctly_apart(i: &Interpretation, first: &Expr, second: &Expr) -> bool
    ensures { IsTrue result ↔ IsDistinctlyApart i.now first.now second.now }
{
    same_tree(first, second) || are_disjoint(i, first, second)
}

/// Calls `is_in` at most twice for each element.
fn are_disjoint(i: &Interpretation, first: &Expr, second: &Expr) -> bool
    ensures { IsTrue result ↔ AreDisjoint i.now first.now second.now }
{
    for element in 0..i.size {
        if is_in(i, element, first) && is_in(i, element, second) {
            return false;
        }
    }
    true
}

/// The time of `is_union` and of `are_pairwise_disjoint`.
fn is_disjoint_union(i: &Interpretation, class: u32, operands: &[Expr]) -> bool
    ensures { IsTrue result ↔ IsDisjointUnion i.now class operands.now }
{
    is_union(i, class, operands) && are_pairwise_disjoint(i, operands)
}

/// Calls `is_in` for each operand and each element, and goes over the classes' pairs for each element.
fn is_union(i: &Interpretation, class: u32, operands: &[Expr]) -> bool
    ensures { IsTrue result ↔ HasSameMembers i.now (Expr.Name class) (Expr.Join operands.now) }
{
    for element in 0..i.size {
        if class_has(i, class, element) != is_in_one(i, element, operands) {
            return false;
        }
    }
    true
}

/// Quadratic in the roles, with `has_same_edges` for every two.
fn have_same_edges(i: &Interpretation, roles: &[u32]) -> bool
    ensures { IsTrue result ↔ EveryTwo (HasSameEdges i.now) roles.now }
{
    for role in roles {
        if !has_edges_of_each(i, *role, roles) {
            return false;
        }
    }
    true
}

/// Calls `has_same_edges` for each role.
fn has_edges_of_each(i: &Interpretation, first: u32, roles: &[u32]) -> bool
    ensures { IsTrue result ↔ All (λ role. HasSameEdges i.now first role) roles.now }
{
    for role in roles {
        if !has_same_edges(i, first, *role) {
            return false;
        }
    }
    true
}

/// Quadratic in the edges.
fn has_same_edges(i: &Interpretation, first: u32, second: u32) -> bool
    ensures { IsTrue result ↔ HasSameEdges i.now first second }
{
    is_sub_role(i, first, second) && is_sub_role(i, second, first)
}

/// Quadratic in the edges.
fn is_sub_role(i: &Interpretation, lower: u32, upper: u32) -> bool
    ensures { IsTrue result ↔ IsSubRole i.now lower upper }
{
    are_edges_of(i, i.roles.items(), lower, upper)
}

/// Whether those of the edges that are the lower role's are the upper one's too. Goes over the interpretation's edges for each of them.
fn are_edges_of(i: &Interpretation, edges: &[Edge], lower: u32, upper: u32) -> bool
    ensures { IsTrue result ↔ All (λ edge. edge.role ≡ lower
        → IsTrue (has_edge i.now upper edge.source edge.target)) edges.now }
{
    for edge in edges {
        if !is_edge_of(i, *edge, lower, upper) {
            return false;
        }
    }
    true
}

/// Linear in the interpretation's edges.
fn is_edge_of(i: &Interpretation, edge: Edge, lower: u32, upper: u32) -> bool
    ensures { IsTrue result ↔ (edge.role ≡ lower
        → IsTrue (has_edge i.now upper edge.source edge.target)) }
{
    edge.role != lower || has_edge(i, upper, edge.source, edge.target)
}

/// Linear in the edges.
fn has_edge(i: &Interpretation, role: u32, source: u32, target: u32) -> bool
    ensures { result ≡ has_edge i.now role source target }
{
    for edge in i.roles.items() {
        if edge.role == role && edge.source == source && edge.target == target {
            return true;
        }
    }
    false
}

/// Calls `is_in` for each edge of the role.
fn has_domain(i: &Interpretation, role: u32, class: &Expr) -> bool
    ensures { IsTrue result ↔ IsDomain i.now role class.now }
{
    are_sources_in(i, i.roles.items(), role, class)
}

/// Whether those of the edges that are the role's come from the class. Calls `is_in` for each of these.
fn are_sources_in(i: &Interpretation, edges: &[Edge], role: u32, class: &Expr) -> bool
    requires { All (λ edge. edge.source < i.now.size) edges.now }
    ensures { IsTrue result ↔ All (λ edge. edge.role ≡ role
        → IsTrue (member i.now class.now edge.source)) edges.now }
{
    for edge in edges {
        if !is_source_in(i, *edge, role, class) {
            return false;
        }
    }
    true
}

/// Calls `is_in` at most once.
fn is_source_in(i: &Interpretation, edge: Edge, role: u32, class: &Expr) -> bool
    requires { edge.source < i.now.size }
    ensures { IsTrue result ↔ (edge.role ≡ role → IsTrue (member i.now class.now edge.source)) }
{
    edge.role != role || is_in(i, edge.source, class)
}

/// Calls `is_in` for each edge of the role.
fn has_range(i: &Interpretation, role: u32, class: &Expr) -> bool
    ensures { IsTrue result ↔ IsRange i.now role class.now }
{
    are_targets_in(i, i.roles.items(), role, class)
}

/// Whether those of the edges that are the role's lead into the class. Calls `is_in` for each of these.
fn are_targets_in(i: &Interpretation, edges: &[Edge], role: u32, class: &Expr) -> bool
    requires { All (λ edge. edge.target < i.now.size) edges.now }
    ensures { IsTrue result ↔ All (λ edge. edge.role ≡ role
        → IsTrue (member i.now class.now edge.target)) edges.now }
{
    for edge in edges {
        if !is_target_in(i, *edge, role, class) {
            return false;
        }
    }
    true
}

/// Calls `is_in` at most once.
fn is_target_in(i: &Interpretation, edge: Edge, role: u32, class: &Expr) -> bool
    requires { edge.target < i.now.size }
    ensures { IsTrue result ↔ (edge.role ≡ role → IsTrue (member i.now class.now edge.target)) }
{
    edge.role != role || is_in(i, edge.target, class)
}
