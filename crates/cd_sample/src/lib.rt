//! The hand-made index of the tests, and the tests of the engine's public calls over it.
//!
//! The index (`sample`, `hand_made`) is of six classes, 0 to 5, that are all named, one role, and these normal axioms:
//!
//! | Axiom | Says |
//! |---|---|
//! | `-> 0` | everything is a 0, as if it were owl:Thing |
//! | `1 ->` | nothing is a 1, as if it were owl:Nothing |
//! | `2 -> 3` | each 2 is a 3 |
//! | `2 -> some 4` | each 2 has an edge to a 4 |
//! | `some 4 -> 5` | whatever has an edge to a 4 is a 5 |
//!
//! So the class 2 is below 0, 3 and 5. That it is below 5 shows only where its context and the context of its edge tell each other:
//!
//! ```text
//! context of 2                                       context of 4
//!   2, 0, 3, some 4             -- link -->             4, 0
//!   5                           <-- sure --
//! ```
//!
//! Were the context of 4 to have the class 4 only in some case, it would tell a back in place of the sure, and the case would get a context
//! of its own, here one with the empty clause:
//!
//! ```text
//!   5 or some (4 and not 4)     <-- back --
//!                                                    context of 4 and not 4
//!                               -- link -->             the empty clause
//!   5                           <-- dead --
//! ```
//!
//! A second one (`universal_index`) has `-> 0`, `0 2 -> 3`, the edge from each 2 to a 4, and that every edge from a 3 goes to a 5: clauses of
//! the context of 2 have to meet in pairs. In a third one (`choice_index`) each 4 is a 3 or a 5, so that the context of 4 has one clause of
//! both, whose greatest element is 5.
//!
//! The tests are a file for each crate whose calls they make: `index_tests`, `rules_tests`, `context_tests`, `cell_tests`, and `core_tests`
//! for a core over cells. `numbers_tests` has cores over other cells (`numbers`), which are no part of a reasoner: what a core does to its
//! cells and their messages can be read off them. The tests stand here and not in those crates, where the index would stand as often, and
//! each crate would be proved once more with its tests. No crate stands on this one.
#![tactic(auto)]

#[cfg(test)]
mod cell_tests;
#[cfg(test)]
mod context_tests;
#[cfg(test)]
mod core_tests;
#[cfg(test)]
mod index_tests;
#[cfg(test)]
pub mod numbers;
#[cfg(test)]
mod numbers_tests;
#[cfg(test)]
mod rules_tests;
#[cfg(test)]
pub mod sample;
