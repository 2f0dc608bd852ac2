//! From a document to the answers of its classes.
//!
//! `index_of` makes the normal axioms of the document and files them by atom (`cd_normal`, `cd_index`). `saturate` makes as many cells as
//! the limits say (`cd_cell`), with a start message for the context of each class, and lets a core deliver until nothing pends or a
//! maximum is reached (`cd_core`). `answers` does both, and reads the context of each class (`readings`): that the class can have no
//! member, or names that it is below, and names of which that is left open.
//!
//! What is open is decided in rounds (`rounds`). The open names of a class are a group. The context of what is in the class and in none of
//! the group's names is begun for each group, and the cells are run on until they are closed again. Where such a context is without the
//! empty clause, the class is below none of the names. Where it has it, and the group is one name, the class is below that; and where the
//! names are more, the class may be below some of them, so both halves are groups of the next round. After as many rounds as the longest
//! group can be halved, and one, none is left.
//!
//! The contract of `answers` speaks of entailment. Where cells owe each other nothing that is not had, what their contexts tell is true in
//! all models of the normal axioms (`cd_cell`), which are the document's structural normal form (`proofs/Documents.antt`). What is decided
//! (`specs/Decided.antt`) is said of models alone, so it stays so while the cells are run on. A run has no answers only where memory ran
//! out or a maximum was reached: then the rules can reach that many contexts from the normal axioms, or that many facts in them
//! (`specs/Limit.antt`). By a document of named classes alone neither is, where the maxima are above its sizes (`specs/Answerable.antt`):
//! its normal axioms leave no choice and ask for no edge, so that each derived clause is empty or one atom.
//!
//! How the cells are worked, by one core on one thread, is known here and nowhere above.
#![tactic(auto)]

mod group;
mod groups;
mod halt;
mod indexing;
mod laws;
mod readings;
mod rounds;
mod saturation;
mod subsumers;

pub use halt::Halt;
pub use indexing::index_of;
pub use laws::names_are_answerable;
pub use saturation::saturate;
pub use subsumers::answers;
