//! Tokens of a text that comes in pieces.
//!
//! A `Lexer` is fed the bytes of a text in pieces of any sizes and gives the tokens as they end. What the tokens of a text are is a
//! relation on whole texts, in `specs/Tokens.antt`: each is the longest at its place, and the last item is the end of the text or its
//! first bad byte. The contracts of the calls speak of that relation alone: whatever follows, the tokens taken so far are the first of
//! the text; a fault is told as soon as the bytes show it, and not before; after `close` the tokens taken are all of them.
//!
//! A lexer does not keep what it was fed, so its contracts range over all texts that it may have been fed (`IsLexing`,
//! `specs/Lexing.antt`).
//!
//! `machine` has the state: what the bytes behind the last ended piece are the front of, and what is kept of them. Each byte is one
//! step, so no byte is looked at twice, however the text is cut. `specs/Machine.antt` has the same steps as functions, and `proofs/`
//! shows that they find the tokens of the relation. `lexer` has the calls.
//!
//! Its tests are in `cd_calls`.
#![tactic(auto)]

mod bytes;
mod laws;
mod lexer;
mod machine;
mod token;

pub use laws::{items_are_unique, worked_tokens};
pub use machine::Lexer;
pub use token::{Kind, LexFault, Token};
