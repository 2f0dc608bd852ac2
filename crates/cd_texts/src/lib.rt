//! The tests of the reader, and of what is made of a document, over texts in memory: what small texts say, or what is wrong with them and
//! where (`reading_tests`); how much of a source is taken (`limits_tests`); and the normal axioms of a document (`normal_tests`).
//!
//! They make public calls alone. They stand here and not in the crates that they try, each of which would be proved once more with its
//! tests. No crate stands on this one.
#![tactic(auto)]

#[cfg(test)]
mod limits_tests;
#[cfg(test)]
mod normal_tests;
#[cfg(test)]
mod reading_tests;
