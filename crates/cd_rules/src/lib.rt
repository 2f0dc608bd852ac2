//! The rules of the calculus, in code: each call appends exactly the conclusions that use what it is given.
//!
//! A context calls `on_key` once, `on_clause` for each clause that it takes up, and `on_back`, `on_sure` and `on_dead` for each fact that
//! comes. One module has one rule and is named as the rule, with its picture over it. Each goes from the greatest element of the premise,
//! whose rest is made once, to what the index lists for that element (`premise`). `look_ups` asks the index for any atom or role.
#![tactic(auto)]

mod all;
mod atoms;
mod back;
mod candidates;
mod con;
mod dead;
mod ex;
mod existential;
mod facts;
mod init;
pub mod look_ups;
mod neg;
mod partners;
mod premise;
mod sure;

pub use atoms::push_eligible;
pub use back::on_back;
pub use dead::on_dead;
pub use facts::{BackFact, DeadFact, SureFact};
pub use init::on_key;
pub use premise::on_clause;
pub use sure::on_sure;
