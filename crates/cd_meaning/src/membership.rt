//! Whether an element of an interpretation is in a class expression.
ghost use Rattle.std.specs.Prelude.{◌≡◌, ◌<◌, ◌==◌, ◌&&◌};
ghost use Rattle.std.specs.List.{list_all, list_any};
ghost use Rattle.cd_meaning.specs.Membership.{class_has, leads, keeps, member};

use crate::document::{NOTHING, THING};
use crate::expression::Expr;
use crate::interpretation::{Interpretation, Member};

/// Whether an element is in a class expression, for trying the definitions on interpretations. Direct Semantics, section 2.2.3.
///
/// Goes over each node of the expression at most once, with a pass over the classes' pairs at a name and one over the roles' edges at a
/// quantifier. But what stands in a quantifier is tested at each edge of the role from the element, each time anew: so the time can grow
/// by that factor with each quantifier inside another. Recurs as deep as the expression nests.
#[cycle(is_in)]
pub fn is_in(i: &Interpretation, element: u32, e: &Expr) -> bool
    requires { element < i.now.size }
    ensures { result ≡ member i.now e.now element }
{
    match e {
        Expr::Name(class) => class_has(i, *class, element),
        Expr::Meet(parts) => is_in_each(i, element, parts.as_slice()),
        Expr::Join(parts) => is_in_one(i, element, parts.as_slice()),
        Expr::Minus(part) => !is_in(i, element, part.get()),
        Expr::SomeOf(role, part) => has_edge_into(i, element, *role, part.get()),
        Expr::AllOf(role, part) => has_edges_into(i, element, *role, part.get()),
    }
}

/// Whether an element is in a named class. Linear in the classes' pairs.
pub(crate) fn class_has(i: &Interpretation, class: u32, element: u32) -> bool
    ensures { result ≡ class_has i.now class element }
{
    class == THING || class != NOTHING && is_listed(i.classes.items(), class, element)
}

/// Linear in the pairs.
fn is_listed(members: &[Member], class: u32, element: u32) -> bool
    ensures { result ≡ list_any (λ m. m.class == class && m.element == element) members.now }
{
    members
        .iter()
        .any(|m| m.class == class && m.element == element)
}

/// Whether an element is in every part. Up to the first that it is not in, the time of `is_in` for each.
#[cycle(is_in)]
fn is_in_each(i: &Interpretation, element: u32, parts: &[Expr]) -> bool
    requires { element < i.now.size }
    ensures { result ≡ list_all (λ part. member i.now part element) parts.now }
{
    for part in parts {
        if !is_in(i, element, part) {
            return false;
        }
    }
    true
}

/// Whether an element is in some part. Up to the first that it is in, the time of `is_in` for each.
#[cycle(is_in)]
pub(crate) fn is_in_one(i: &Interpretation, element: u32, parts: &[Expr]) -> bool
    requires { element < i.now.size }
    ensures { result ≡ list_any (λ part. member i.now part element) parts.now }
{
    for part in parts {
        if is_in(i, element, part) {
            return true;
        }
    }
    false
}

/// Whether some edge of the role leads from the element into the part. A pass over the edges, with the time of `is_in` at each that is
/// one of the role from the element.
#[cycle(is_in)]
fn has_edge_into(i: &Interpretation, element: u32, role: u32, part: &Expr) -> bool
    requires { element < i.now.size }
    ensures { result ≡ list_any (leads role element (member i.now part.now)) i.now.roles }
{
    for edge in i.roles.items() {
        if edge.role == role && edge.source == element && is_in(i, edge.target, part) {
            return true;
        }
    }
    false
}

/// Whether every edge of the role from the element leads into the part. A pass over the edges, with the time of `is_in` at each that is
/// one of the role from the element.
#[cycle(is_in)]
fn has_edges_into(i: &Interpretation, element: u32, role: u32, part: &Expr) -> bool
    requires { element < i.now.size }
    ensures { result ≡ list_all (keeps role element (member i.now part.now)) i.now.roles }
{
    for edge in i.roles.items() {
        if edge.role == role && edge.source == element && !is_in(i, edge.target, part) {
            return false;
        }
    }
    true
}
