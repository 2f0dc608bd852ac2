//! The ranks of atoms: the order in which the calculus goes through the atoms of a clause.
//!
//! The rules work on the greatest element of a clause alone, and atoms are compared by rank. Whatever the ranks, the calculus is sound and
//! complete; they decide how much work it is. So nothing is promised of them here beyond that the call returns. They are such that an
//! atom's told superclasses are below it: of a clause with both, the lower class is replaced first, by what is above it, which mostly
//! leaves less of the clause and not more.
//!
//! What the axioms tell is in `told`, as a graph; `walk` finds the longest way up from each of its nodes, and `ranks` the places of the
//! classes by these.
//!
//! Its tests are in `cd_calls`.
#![tactic(auto)]

mod ranks;
mod told;
mod walk;

pub use ranks::told_ranks;
