//! The clauses of one context, by number, without those that say nothing beside another.
//!
//! A clause covers another where each of its elements is at least as strong as one of the other's. A clause that a live one covers isn't
//! stored; a live one that the new clause covers is dead from then on, but stays stored under its number.
//!
//! Each number is filed under the elements of its clause, and apart under the last of them. So what covers a new clause is sought among the
//! clauses that end in an element at least as strong as one of its own, and what it covers among those with an element that its last is at
//! least as strong as, and a clause is compared with no other. Only the empty clause has no element: where it is live nothing else is, so
//! the first live clause is always compared.
//!
//! Whoever closes the clauses under rules asks the same lists which clauses have an atom (`Store::push_with_atom`) or an existential
//! (`Store::push_with_existential`).
//!
//! Its tests are in `cd_calls`.
#![tactic(auto)]

mod coverings;
mod filing;
mod store;

pub use store::{Added, Store};
