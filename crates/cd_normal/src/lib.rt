//! The normal axioms of a document: what the calculus works on.
//!
//! `normalise` (`documents`) turns each axiom into normal axioms (`axioms`), by structural transformation: an expression that is not a
//! class gets a fresh atom, above the expression where it stands on the left (neg) and below it where it stands on the right (pos), and
//! normal axioms that say so (`uses`, one row each of its table in `rows`). Equivalent operands imply each other in a circle
//! (`circles`); operands of a disjointness are told apart as trees by a code of each (`codes`, `distinct`) and kept apart by a chain of
//! fresh atoms (`chain`, `apart`), so that no axiom is made for each pair. `maker` holds the normal axioms in the making.
//!
//! No negation normal form is built: a complement turns the side.
//!
//! What the structural normal form is stands in `specs/Represents.antt` and `specs/NormalForm.antt`, as a relation between a document, a
//! choice of atoms and a list of normal axioms. That it loses and adds nothing is proved of the relation (`laws`), apart from the code.
#![tactic(auto)]

mod apart;
mod axioms;
mod chain;
mod circles;
mod codes;
mod distinct;
mod documents;
mod laws;
mod maker;
mod rows;
mod uses;

pub use documents::normalise;
pub use laws::{extends, restricts};
pub use maker::Maker;
pub use uses::used;
