//! What a document is, as text: the words, the grammar, the first fault, and what is told of it. There is no parser here.
//!
//! Which texts are documents is a grammar over the words and tokens of the standard, in `specs/Grammar.antt`, with the constructs that no
//! document has in `specs/Constructs.antt`. What is wrong with a text is in `specs/Fault.antt`, in terms of all documents that begin as it
//! does, and `specs/Refusal.antt` says what is told of it. `specs/WorkedTexts.antt` has small texts with what they say, and
//! `specs/Laws.antt` what holds of all texts.
//!
//! The rest is what a parser needs to know a token by. A word goes by a key (`words`, `specs/Words.antt`), and a token by an item (`item`,
//! `specs/Items.antt`), which may stand for an IRI, a class or a role (`named`, `specs/Named.antt`). Operands make an axiom or an
//! expression by tables (`operands`, `specs/Operands.antt`). `proofs/ItemGrammar.antt` is the grammar over items, and the proofs beside it
//! show that it and the one over tokens have the same documents, fronts and causes (`ItemsOfTokens`, `LinesOfTokens`, `TokensOfItems`,
//! `FaultsOfTokens`).
#![tactic(auto)]

mod cause;
mod item;
mod known;
mod laws;
mod named;
mod operands;
mod refusal;
mod words;

pub use cause::Cause;
pub use item::{Item, item_of};
pub use known::Known;
pub use laws::has_no_fault_where_read;
pub use named::{class_of, is_iri, is_subject, role_of};
pub use operands::{Made, has_class_head, make, wants_head, wants_part};
pub use refusal::Refusal;
pub use words::{AxiomForm, ExprForm, Form, Keyword, word_text};
