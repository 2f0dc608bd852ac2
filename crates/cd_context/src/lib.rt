//! One context: the clauses of a key, closed under the rules, and what it owes to other contexts.
//!
//! A context is begun with its key and takes facts from other contexts, one at a time. Each time it takes up the clauses that wait, the
//! shortest first, until every conclusion is redundant (`closing`), and then says what it came to owe (`owing`). A clause that is taken up
//! meets only those of the earlier ones that can be of use beside it, which the store finds by what they have (`beside`): each pair meets
//! once. A fact meets only the clauses that have its existential (`fact_rules`). A context never looks at another one: what it is told of
//! them is its facts.
#![tactic(auto)]

mod beside;
mod closing;
mod context;
mod distinct;
mod fact_lists;
mod fact_rules;
mod facts;
mod laws;
mod live;
mod notes;
mod open;
mod owing;
mod sending;
mod waiting;

pub use context::Context;
pub use facts::{Fact, LinkFact, Note};
pub use laws::{owed_is_justified, stored_is_derived};
