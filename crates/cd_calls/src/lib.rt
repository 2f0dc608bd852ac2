//! The tests of the calls of the low crates, a file for each crate whose calls they make: `values` (`cd_base`), `streams` (`cd_io`), `words`
//! (`cd_words`), `tokens` (`cd_lex`), `names` (`cd_names`), `meaning` (`cd_meaning`), `taxonomy` (`cd_taxonomy`), `generated` (`cd_gen`),
//! `normal_forms` (`cd_nnf`), `ranks` (`cd_ranks`), `clauses` (`cd_clause`), `stores` (`cd_store`) and `outboxes` (`cd_actor`).
//! `expressions` makes the class expressions of two of them.
//!
//! They make public calls alone. They stand here and not in those crates, each of which would be proved once more with its tests. No crate
//! stands on this one.
//!
//! A test is proved too, and most of what that takes is for what it lets go of, on each way out. So tests and their helpers abort where
//! memory is out, in place of returning the fault, and let go of what they own by `drop`, in one place, at the end. Like cases stand in one
//! table or one after another in one test.
#![tactic(auto)]

#[cfg(test)]
mod clauses;
#[cfg(test)]
mod expressions;
#[cfg(test)]
mod generated;
#[cfg(test)]
mod meaning;
#[cfg(test)]
mod names;
#[cfg(test)]
mod normal_forms;
#[cfg(test)]
mod outboxes;
#[cfg(test)]
mod ranks;
#[cfg(test)]
mod stores;
#[cfg(test)]
mod streams;
#[cfg(test)]
mod taxonomy;
#[cfg(test)]
mod tokens;
#[cfg(test)]
mod values;
#[cfg(test)]
mod words;
