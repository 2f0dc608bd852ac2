//! The normal forms of an expression and of its complement.
ghost use Rattle.std.specs.Prelude.{◌≡◌, map, IfOk};
ghost use Rattle.cd_meaning.specs.declared.expression.Expr.TheVariants.{SomeOf, AllOf};
ghost use Rattle.cd_nnf.specs.Nnf.{nnf, nnf_not};

use cd_base::Memory;
use cd_meaning::Expr;
use sqlite_items::{Boxed, Items};
use std::alloc::Global;

/// The negation normal form of an expression: it has the same members, and in it `Minus` stands before names alone. For membership
/// see Direct Semantics, section 2.2.3.
///
/// Linear in the nodes, in time and in memory, and recurs as deep as the expression nests. An error says that memory ran out.
#[cycle(nnf)]
pub fn nnf(alloc: Global, e: &Expr) -> Result<Expr, Memory>
    ensures { IfOk result (λ made. made ≡ nnf e.now) }
{
    match e {
        Expr::Name(class) => Ok(Expr::Name(*class)),
        Expr::Meet(parts) => Ok(Expr::Meet(nnf_each(alloc, parts.as_slice())?)),
        Expr::Join(parts) => Ok(Expr::Join(nnf_each(alloc, parts.as_slice())?)),
        Expr::Minus(part) => nnf_not(alloc, part.get()),
        Expr::SomeOf(role, part) => some_of(alloc, *role, nnf(alloc, part.get())?),
        Expr::AllOf(role, part) => all_of(alloc, *role, nnf(alloc, part.get())?),
    }
}

/// The negation normal form of the complement of an expression: it has the other elements, and in it `Minus` stands before names
/// alone. For membership see Direct Semantics, section 2.2.3.
///
/// Linear in the nodes, in time and in memory, and recurs as deep as the expression nests. An error says that memory ran out.
#[cycle(nnf)]
pub fn nnf_not(alloc: Global, e: &Expr) -> Result<Expr, Memory>
    ensures { IfOk result (λ made. made ≡ nnf_not e.now) }
{
    match e {
        Expr::Name(class) => Ok(Expr::Minus(Boxed::new(alloc, Expr::Name(*class))?)),
        Expr::Meet(parts) => Ok(Expr::Join(nnf_not_each(alloc, parts.as_slice())?)),
        Expr::Join(parts) => Ok(Expr::Meet(nnf_not_each(alloc, parts.as_slice())?)),
        Expr::Minus(part) => nnf(alloc, part.get()),
        Expr::SomeOf(role, part) => all_of(alloc, *role, nnf_not(alloc, part.get())?),
        Expr::AllOf(role, part) => some_of(alloc, *role, nnf_not(alloc, part.get())?),
    }
}

/// The normal form of each part, in order. Linear in their nodes.
#[cycle(nnf)]
fn nnf_each(alloc: Global, parts: &[Expr]) -> Result<Items<Expr>, Memory>
    ensures { IfOk result (λ made. made ≡ map nnf parts.now) }
{
    let mut made = Items::new(alloc);
    for part in parts {
        made.push(nnf(alloc, part)?)?;
    }
    Ok(made)
}

/// The normal form of the complement of each part, in order. Linear in their nodes.
#[cycle(nnf)]
fn nnf_not_each(alloc: Global, parts: &[Expr]) -> Result<Items<Expr>, Memory>
    ensures { IfOk result (λ made. made ≡ map nnf_not parts.now) }
{
    let mut made = Items::new(alloc);
    for part in parts {
        made.push(nnf_not(alloc, part)?)?;
    }
    Ok(made)
}

/// Constant time.
fn some_of(alloc: Global, role: u32, part: Expr) -> Result<Expr, Memory>
    ensures { IfOk result (λ made. made ≡ SomeOf role part) }
{
    Ok(Expr::SomeOf(role, Boxed::new(alloc, part)?))
}

/// Constant time.
fn all_of(alloc: Global, role: u32, part: Expr) -> Result<Expr, Memory>
    ensures { IfOk result (λ made. made ≡ AllOf role part) }
{
    Ok(Expr::AllOf(role, Boxed::new(alloc, part)?))
}
