//! What each form of axiom gives.
ghost use Rattle.std.specs.Prelude.{◌≡◌, ◌<◌, ◌+◌, ◌*◌, ◌^◌, ℕ, IsTrue, IfOk};
ghost use Rattle.std.specs.List.{list_all};
ghost use Rattle.cd_normal.specs.NormalForm.{GivesFrom};
ghost use Rattle.cd_meaning.specs.Nodes.{nodes_in, nodes};
ghost use Rattle.cd_meaning.specs.Numbered.{has_numbers_below};
ghost use Rattle.cd_meaning.specs.declared.expression.Axiom.TheVariants.{SubClass, SameClasses, DisjointUnion, SubRole, SameRoles, Domain, Range};
ghost use Rattle.cd_normal.specs.Made.{IsGiven, IsGivenBy, IsGrown, IsGrownOnce, role_operands};

use crate::apart::apart;
use crate::maker::Maker;
use crate::uses::{used, used_each};
use cd_base::{Atom, Memory};
use cd_meaning::{Axiom, Expr, THING};
use std::alloc::Global;

/// Adds the normal axioms of an axiom.
///
/// Linear in the axiom's nodes, and in its operands where these are roles.
pub(crate) fn stated_gives(
    maker: &mut Maker,
    alloc: Global,
    classes: u32,
    stated: &Axiom,
) -> Result<(), Memory>
    requires within { (roles : ℕ) × IsTrue (has_numbers_below classes roles stated.now) }
    requires few { maker.old.next + 6 * nodes_in stated.now < 2 ^ 32 }
    ensures given { IfOk result (λ done. IsGivenBy classes maker.old maker.new stated.now) }
    ensures grown { IfOk result (λ done. IsGrownOnce maker.old maker.new stated.now) }
{
    match stated {
        Axiom::SubClass(lower, higher) => sub_class(maker, alloc, classes, lower, higher),
        Axiom::SameClasses(operands) => same_classes(maker, alloc, classes, operands.items()),
        Axiom::Disjoint(operands) => apart(maker, alloc, classes, operands.items()),
        Axiom::DisjointUnion(class, operands) => {
            disjoint_union(maker, alloc, classes, *class, operands.items())
        }
        Axiom::SubRole(lower, higher) => sub_role(maker, classes, *lower, *higher),
        Axiom::SameRoles(roles) => same_roles(maker, classes, roles.items()),
        Axiom::Domain(role, class) => domain(maker, alloc, classes, *role, class),
        Axiom::Range(role, class) => range(maker, alloc, classes, *role, class),
    }
}

/// `SubClassOf`: the neg atom of the lower class implies the pos atom of the higher one.
fn sub_class(
    maker: &mut Maker,
    alloc: Global,
    classes: u32,
    lower: &Expr,
    higher: &Expr,
) -> Result<(), Memory>
    requires within { (roles : ℕ)
        × IsTrue (has_numbers_below classes roles (SubClass lower.now higher.now)) }
    requires few { maker.old.next + 6 * nodes_in (SubClass lower.now higher.now) < 2 ^ 32 }
    ensures given { IfOk result (λ done.
        IsGivenBy classes maker.old maker.new (SubClass lower.now higher.now)) }
    ensures grown { IfOk result (λ done.
        IsGrownOnce maker.old maker.new (SubClass lower.now higher.now)) }
{
    let x = used(maker, alloc, classes, lower, false, false)?;
    let y = used(maker, alloc, classes, higher, true, false)?;
    maker.link(alloc, x, Atom(y), true)?;
    Ok(())
}

/// `EquivalentClasses`: each operand is below the next, and the last below the first.
fn same_classes(
    maker: &mut Maker,
    alloc: Global,
    classes: u32,
    operands: &[Expr],
) -> Result<(), Memory>
    requires within { (roles : ℕ)
        × IsTrue (has_numbers_below classes roles (SameClasses operands.now)) }
    requires few { maker.old.next + 6 * nodes_in (SameClasses operands.now) < 2 ^ 32 }
    ensures given { IfOk result (λ done.
        IsGivenBy classes maker.old maker.new (SameClasses operands.now)) }
    ensures grown { IfOk result (λ done.
        IsGrownOnce maker.old maker.new (SameClasses operands.now)) }
{
    let xs = used_each(maker, alloc, classes, operands, false, false)?;
    let ys = used_each(maker, alloc, classes, operands, true, false)?;
    maker.imply_round(alloc, &xs, &ys)?;
    Ok(())
}

/// The operands are in the class, which is in their union, and they are apart.
fn disjoint_union(
    maker: &mut Maker,
    alloc: Global,
    classes: u32,
    class: u32,
    operands: &[Expr],
) -> Result<(), Memory>
    requires within { (roles : ℕ)
        × IsTrue (has_numbers_below classes roles (DisjointUnion class operands.now)) }
    requires few { maker.old.next + 6 * nodes_in (DisjointUnion class operands.now) < 2 ^ 32 }
    ensures given { IfOk result (λ done.
        IsGivenBy classes maker.old maker.new (DisjointUnion class operands.now)) }
    ensures grown { IfOk result (λ done.
        IsGrownOnce maker.old maker.new (DisjointUnion class operands.now)) }
{
    let xs = used_each(maker, alloc, classes, operands, false, false)?;
    let ys = used_each(maker, alloc, classes, operands, true, false)?;
    apart(maker, alloc, classes, operands)?;
    maker.imply_each(alloc, class, &xs, false)?;
    let here = vec![in alloc; Atom(class)]?;
    maker.add_implication(here, ys)?;
    Ok(())
}

/// `SubObjectPropertyOf`: one pair of roles.
fn sub_role(maker: &mut Maker, classes: u32, lower: u32, higher: u32) -> Result<(), Memory>
    ensures given { IfOk result (λ done.
        IsGivenBy classes maker.old maker.new (SubRole lower higher)) }
    ensures grown { IfOk result (λ done. IsGrownOnce maker.old maker.new (SubRole lower higher)) }
{
    maker.add_role(lower, higher)?;
    Ok(())
}

/// `EquivalentObjectProperties`: each role is under the next, and the last under the first.
fn same_roles(maker: &mut Maker, classes: u32, roles: &[u32]) -> Result<(), Memory>
    ensures given { IfOk result (λ done.
        IsGivenBy classes maker.old maker.new (SameRoles roles.now)) }
    ensures grown { IfOk result (λ done. IsGrownOnce maker.old maker.new (SameRoles roles.now)) }
{
    maker.under_round(roles)?;
    Ok(())
}

/// `ObjectPropertyDomain`: every element with an edge to any element is in the pos atom.
fn domain(
    maker: &mut Maker,
    alloc: Global,
    classes: u32,
    role: u32,
    class: &Expr,
) -> Result<(), Memory>
    requires within { (roles : ℕ)
        × IsTrue (has_numbers_below classes roles (Domain role class.now)) }
    requires few { maker.old.next + 6 * nodes_in (Domain role class.now) < 2 ^ 32 }
    ensures given { IfOk result (λ done.
        IsGivenBy classes maker.old maker.new (Domain role class.now)) }
    ensures grown { IfOk result (λ done. IsGrownOnce maker.old maker.new (Domain role class.now)) }
{
    let x = used(maker, alloc, classes, class, true, false)?;
    maker.add_propagation(THING, role, x)?;
    Ok(())
}

/// `ObjectPropertyRange`: every edge from any element goes to the pos atom.
fn range(
    maker: &mut Maker,
    alloc: Global,
    classes: u32,
    role: u32,
    class: &Expr,
) -> Result<(), Memory>
    requires within { (roles : ℕ)
        × IsTrue (has_numbers_below classes roles (Range role class.now)) }
    requires few { maker.old.next + 6 * nodes_in (Range role class.now) < 2 ^ 32 }
    ensures given { IfOk result (λ done.
        IsGivenBy classes maker.old maker.new (Range role class.now)) }
    ensures grown { IfOk result (λ done. IsGrownOnce maker.old maker.new (Range role class.now)) }
{
    let x = used(maker, alloc, classes, class, true, false)?;
    maker.add_universal(0, role, x)?;
    Ok(())
}

/// Adds the normal axioms of each of these axioms, in turn.
///
/// Linear in their nodes, and in the operands that are roles.
pub(crate) fn all_give(
    maker: &mut Maker,
    alloc: Global,
    classes: u32,
    axioms: &[Axiom],
) -> Result<(), Memory>
    requires within { (roles : ℕ) × IsTrue (list_all (has_numbers_below classes roles) axioms.now) }
    requires few { maker.old.next + 6 * nodes axioms.now < 2 ^ 32 }
    ensures given { IfOk result (λ done.
        IsGiven classes maker.old maker.new
        (λ Fresh axs. GivesFrom classes Fresh 0 axioms.now axs)) }
    ensures grown { IfOk result (λ done.
        IsGrown maker.old maker.new (6 * nodes axioms.now)
        (12 * nodes axioms.now + role_operands axioms.now)) }
{
    for stated in axioms {
        stated_gives(maker, alloc, classes, stated)?;
    }
    Ok(())
}
