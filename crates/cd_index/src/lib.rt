//! Normal axioms by atom, and the roles above each role.
//!
//! `Closure` walks over the role pairs once from each role that has one. `Index` takes the axioms and their closure, and lends for
//! each atom the axioms in which it stands at a place that rules ask for.
#![tactic(auto)]

mod by_atom;
mod closure;
mod index;
mod lists;
mod walk;

pub use closure::Closure;
pub use index::Index;
