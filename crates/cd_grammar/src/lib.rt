//! From the bytes of a source to the document that they are, or to their first fault.
//!
//! `read_document` (`input`) reads a source in pieces and hands each to a `Reader` (`reader`), which cuts it into tokens by `cd_lex` and
//! hands these to a `Parser` (`parser`). The parser knows the prefixes, classes, roles and axioms so far and keeps a stack of what is
//! wanted next (`symbol`); `places` says what may stand at each place. Where an item can't stand, `cause` says why, and the parser takes
//! no more.
//!
//! Which texts are documents, and what is wrong with one that is none, `cd_syntax` says, without a parser. `specs/Machine.antt` has the
//! parser as a function, which the code is proved equal to. `proofs/` shows that it takes exactly the documents of the grammar over items
//! and stops at the first fault, and with that the laws of the definitions that need it: it decides what a text is (`laws`).
//!
//! The time is linear in the bytes, however they are cut. Nothing recurs over the input, and what is held beside the document is the
//! bytes of one read and the unfinished token, of a string or a language tag nothing.
#![tactic(auto)]

mod cause;
mod input;
mod laws;
mod parser;
mod places;
mod reader;
mod symbol;

pub use input::{ReadRefusal, read_document};
pub use laws::{has_one_fault, has_one_reading, is_read_or_faulty, known_is_sound, worked_texts};
