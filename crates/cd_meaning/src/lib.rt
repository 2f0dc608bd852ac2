//! Ontology documents, and what they mean.
//!
//! The types are the abstract syntax of the fragment ALCH, with classes and roles by number. What they mean is in `specs/`, which
//! can be read alone: which elements of a finite interpretation are in a class expression, which axioms hold in it, what a document
//! entails, and which text is the answer to a document. Nothing there knows of a way to find that out.
//!
//! Of one finite interpretation the definitions can be run: `is_in` and `holds` decide membership and truth in it, and are proved to
//! answer just what the definitions say.
//!
//! Its tests are in `cd_calls`.
#![tactic(auto)]

mod document;
mod expression;
mod interpretation;
mod laws;
mod membership;
mod trees;
mod truth;
mod worked;

pub use document::{Document, NOTHING, THING};
pub use expression::{Axiom, Expr};
pub use interpretation::{Edge, Interpretation, Member};
pub use laws::{finite_is_enough, finite_is_some, has_one_answer};
pub use membership::is_in;
pub use truth::holds;
pub use worked::{worked_members, worked_texts, worked_truths};
