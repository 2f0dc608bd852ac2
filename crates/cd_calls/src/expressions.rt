//! Class expressions, made of their parts.
use cd_meaning::Expr;
use sqlite_items::{Boxed, Items};
use std::alloc::Global;
use std::process::Abort;

/// The names of these classes.
pub(crate) fn names(rt: &impl Abort, alloc: Global, classes: &[u32]) -> Vec<Expr> {
    let mut found = Vec::new(alloc);
    for class in classes {
        found.push(Expr::Name(*class)).expect(rt, "memory");
    }
    found
}

fn boxed(rt: &impl Abort, alloc: Global, part: Expr) -> Boxed<Expr> {
    Boxed::new(alloc, part).expect(rt, "memory")
}

pub(crate) fn minus(rt: &impl Abort, alloc: Global, part: Expr) -> Expr {
    Expr::Minus(boxed(rt, alloc, part))
}

pub(crate) fn some_of(rt: &impl Abort, alloc: Global, role: u32, part: Expr) -> Expr {
    Expr::SomeOf(role, boxed(rt, alloc, part))
}

pub(crate) fn all_of(rt: &impl Abort, alloc: Global, role: u32, part: Expr) -> Expr {
    Expr::AllOf(role, boxed(rt, alloc, part))
}

pub(crate) fn meet(parts: Vec<Expr>) -> Expr {
    Expr::Meet(Items::from_vec(parts))
}

pub(crate) fn join(parts: Vec<Expr>) -> Expr {
    Expr::Join(Items::from_vec(parts))
}
