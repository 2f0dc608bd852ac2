//! What the calculus means: which clauses are true of an element of an interpretation, that what is derived is true, and that contexts in
//! which nothing more can be concluded say all that is true.
//!
//! `cd_clause` has clauses and rules as lists and relations between them, and no crate that runs the rules asks what they mean. Here the
//! normal axioms get the models that they have in `cd_meaning`, and a clause its meaning (`specs/Meaning.antt`): whatever meets the
//! context's key is in one of the clause's atoms, or has an edge to what meets the key of one of its existentials. There is no code but
//! the laws.
//!
//! - Soundness. Each rule's conclusion is true where its premises are, so what is derived is true in every model, by induction over the
//!   derivation (`proofs/Sound.antt`).
//! - The canonical interpretation. Contexts are saturated where each conclusion of every rule is redundant in its context
//!   (`specs/Saturated.antt`). Of these a finite interpretation is made (`specs/Canonical.antt`). In each context the live clauses are gone
//!   through upwards by their greatest elements, and of each the greatest is chosen, where no element is satisfied yet: none that was chosen
//!   is at least as strong. The contexts without the empty clause are the elements of the interpretation: such an element is in the atoms
//!   that are chosen in its context, and has edges to the contexts of the existentials that are.
//! - Completeness. Of the clause that made a choice nothing else is satisfied (`proofs/Choice.antt`), so a rule from such clauses would
//!   have a conclusion of which nothing is, unless the axiom holds: the canonical interpretation is a model (`proofs/Model.antt`). It
//!   matters that stronger existentials come first in the order: so no chosen element is at least as strong as another.
//! - Exactness. With soundness for the one direction and the canonical interpretation for the other (`specs/Exactness.antt`): the named
//!   atoms whose own clause is live in the context of a named atom have each of its elements in every model, and those that aren't chosen
//!   there have not. Of those between, some has each element of it exactly where the context of the atom and of them, negated, has the
//!   empty clause. A class has one true answer (`specs/TrueAnswers.antt`).
#![tactic(auto)]

mod laws;

pub use laws::{answers_are_exact, contexts_have_a_model, derived_is_true, has_one_true_answer};
