//! The axioms, with the classes and the roles by number.
ghost use Rattle.std.specs.Prelude.{◌≡◌, ◌≤◌, ◌<◌, ◌++◌, ◌∷◌, [], IfOk, OnOk};
ghost use Rattle.cd_meaning.specs.declared.expression.Expr.TheVariants.{Name};
ghost use Rattle.cd_gen.specs.Generated.{class_axioms, edge_axioms, level_axioms, generated_axioms, class_a};

use cd_base::{Memory, Seq};
use cd_meaning::{Axiom, Expr};
use sqlite_items::{Boxed, Items};
use std::alloc::Global;

/// D, by its number.
const CLASS_D: u32 = 2;

/// E, by its number.
const CLASS_E: u32 = 3;

/// R, by its number.
const ROLE_R: u32 = 0;

/// S, by its number.
const ROLE_S: u32 = 1;

/// The axioms of a document of `n` levels. Linear in `n`.
pub(crate) fn axioms(alloc: Global, n: u32) -> Result<Vec<Axiom>, Memory>
    requires { n ≤ 20000 }
    ensures { IfOk result (λ found. found.items ≡ generated_axioms n) }
{
    let mut found = fixed_axioms(alloc)?;
    for level in 0..n {
        push_classes(alloc, &mut found, level)?;
        push_edge(alloc, &mut found, level)?;
    }
    Ok(found)
}

/// R is below S, and whatever has an S-edge to D is in E.
fn fixed_axioms(alloc: Global) -> Result<Vec<Axiom>, Memory>
    ensures { IfOk result (λ found. found.items ≡ generated_axioms 0) }
{
    let edge = Expr::SomeOf(ROLE_S, Boxed::new(alloc, Expr::Name(CLASS_D))?);
    let mut found = Vec::new(alloc);
    found.push(Axiom::SubRole(ROLE_R, ROLE_S))?;
    found.push(Axiom::SubClass(edge, Expr::Name(CLASS_E)))?;
    Ok(found)
}

/// Adds the axioms between the classes of a level.
fn push_classes(alloc: Global, found: &mut Vec<Axiom>, level: u32) -> Result<(), Memory>
    requires { level < 20000 }
    ensures { OnOk result (found.new.items ≡ found.old.items ++ class_axioms level) }
{
    let a = class_a(level);
    let b = a + 1;
    let c = a + 2;
    let u = a + 3;
    let union = Expr::Join(Items::from_vec(two_names(alloc, b, c)?));
    found.push(Axiom::SubClass(Expr::Name(a), union))?;
    found.push(sub_class(b, CLASS_D))?;
    found.push(sub_class(c, CLASS_D))?;
    found.push(sub_class(u, a))?;
    found.push(Axiom::Disjoint(Seq::of(two_names(alloc, u, CLASS_D)?)))?;
    Ok(())
}

/// Adds the axiom that A has an R-edge to the A of the level before, if there is one.
fn push_edge(alloc: Global, found: &mut Vec<Axiom>, level: u32) -> Result<(), Memory>
    requires { level < 20000 }
    ensures { OnOk result (found.new.items ≡ found.old.items ++ edge_axioms level) }
{
    if level > 0 {
        let before = Expr::Name(class_a(level - 1));
        let edge = Expr::SomeOf(ROLE_R, Boxed::new(alloc, before)?);
        found.push(Axiom::SubClass(Expr::Name(class_a(level)), edge))?;
    }
    Ok(())
}

/// The number of A of a level. B, C and U have the three numbers after it.
fn class_a(level: u32) -> u32
    requires { level < 20000 }
    ensures { result ≡ class_a level }
{
    4 * level + 4
}

/// Two named classes.
fn two_names(alloc: Global, first: u32, second: u32) -> Result<Vec<Expr>, Memory>
    ensures { IfOk result (λ found. found.items ≡ Name first ∷ Name second ∷ []) }
{
    let found = vec![in alloc; Expr::Name(first), Expr::Name(second)]?;
    Ok(found)
}

/// One named class is below another.
fn sub_class(lower: u32, upper: u32) -> Axiom
    ensures { result ≡ Axiom.SubClass (Name lower) (Name upper) }
{
    Axiom::SubClass(Expr::Name(lower), Expr::Name(upper))
}
