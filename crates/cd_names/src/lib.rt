//! Names by number, and prefixes.
//!
//! [`Names`] numbers IRIs in the order in which they come: an IRI that came before keeps its number. [`Prefixes`] says what IRI each
//! prefix stands for, and turns an abbreviated IRI into a full one. Contracts see both as lists, in the order of the additions.
//!
//! A call makes one look-up in a hash table, and two only where it declares a new prefix. An error leaves all as it was.
//!
//! Its tests are in `cd_calls`.
#![tactic(auto)]

mod names;
mod prefixes;

pub use names::Names;
pub use prefixes::{DeclareFault, ExpandFault, Prefixes};
