//! Clauses, the order of their elements, and the calculus: what is derived from normal axioms.
//!
//! A context has a key, a set of literals, and clauses, sets of elements. The rules (specs/Rules.antt) are one relation between premises
//! and conclusion, whatever the premises come from; derivations, stores and contexts are all stated by it. Nothing here speaks of
//! interpretations: what clauses mean, and that what is derived is true, is in `cd_model`.
//!
//! Its tests are in `cd_calls`.
#![tactic(auto)]

mod clause;
mod covering;
mod elem;
mod eligibility;
mod walk;

pub use clause::Clause;
pub use elem::Elem;
pub use eligibility::greatest;
