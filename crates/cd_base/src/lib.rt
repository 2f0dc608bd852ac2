//! What every other crate speaks of: lists that contracts see as lists, atoms, keys and what is said of them, the limits of a run,
//! and the one error that any call may give, want of memory.
//!
//! It stands at the bottom, so nothing here knows of documents, interpretations or bytes.
//!
//! Its tests are in `cd_calls`.
#![tactic(auto)]

mod answer;
mod atom;
mod kept;
mod key;
mod limit_kind;
mod limits;
mod lit;
mod memory;
mod named;
mod normal;
mod role;
mod seq;

pub use answer::Answer;
pub use atom::Atom;
pub use kept::Kept;
pub use key::Key;
pub use limit_kind::LimitKind;
pub use limits::Limits;
pub use lit::Lit;
pub use memory::Memory;
pub use normal::{Conj, Normal, RolePair, Triple};
pub use role::Role;
pub use seq::Seq;
